// What every layer shares: the bounds of document 01, the test of k, big-endian numbers, and copying into a part of a buffer.
#![tactic(auto)]

ghost use Rattle.std.specs.Prelude.{◌≡◌, ◌%◌, ◌<◌, get_or};
ghost use Rattle.base_rules.specs.Answer.{outcome};
ghost use Rattle.base_rules.specs.Bounds.{bad_k};
ghost use Rattle.base_rules.specs.Bytes.{number_at, bytes_of};
ghost use Rattle.base_rules.specs.Written.{number_of, put_of};

pub use base_rules::{LEAST_L, MOST_F, MOST_K, MOST_L, MOST_M, MOST_MTU, PARITY, PLACE, Refusal};

// Whether k is no count of data bytes of a chunk.
pub fn bad_k(k: usize) -> bool
    ensures { result ≡ bad_k k }
{
    k == 0 || MOST_K < k
}

// The byte at i, and 0 past the end.
pub fn byte_at(s: &[u8], i: usize) -> u8
    ensures { result ≡ get_or s.now i 0 }
{
    if i < s.len() { s[i] } else { 0 }
}

// The number in the two bytes from i on; a byte past the end counts as 0.
pub fn read2(s: &[u8], i: usize) -> u16
    ensures { result ≡ number_at 2 s.now i }
{
    if i < s.len() {
        byte_at(s, i) as u16 * 256 + byte_at(s, i + 1) as u16
    } else {
        0
    }
}

// The same for three bytes.
pub fn read3(s: &[u8], i: usize) -> u32
    ensures { (result ≡ number_at 3 s.now i) × (result < 16777216) }
{
    if i < s.len() {
        read2(s, i) as u32 * 256 + byte_at(s, i + 2) as u32
    } else {
        0
    }
}

// The same for four bytes.
pub fn read4(s: &[u8], i: usize) -> u32
    ensures { result ≡ number_at 4 s.now i }
{
    if i < s.len() {
        read3(s, i) * 256 + byte_at(s, i + 3) as u32
    } else {
        0
    }
}

// The two bytes of a number.
pub fn bytes2(x: u16) -> [u8; 2]
    ensures { result ≡ bytes_of 2 x }
{
    u16::to_be_bytes(x)
}

// The three low bytes of a number.
pub fn bytes3(x: u32) -> [u8; 3]
    ensures { result ≡ bytes_of 3 x }
{
    let [_, high, middle, low] = x.to_be_bytes();
    [high, middle, low]
}

// The four bytes of a number.
pub fn bytes4(x: u32) -> [u8; 4]
    ensures { result ≡ bytes_of 4 x }
{
    u32::to_be_bytes(x)
}

// Copies s into d from `at` on; 1 ROOM where it would pass the end, and then d stays as it is.
pub fn put(d: &mut [u8], at: usize, s: &[u8]) -> Result<(), Refusal>
    ensures { outcome (number_of result) d.new ≡ put_of d.old at s.now }
{
    if d.len() < at || d.len() - at < s.len() {
        return Err(Refusal::Room);
    }
    let end = at + s.len();
    d[at..end].copy_from_slice(s);
    Ok(())
}
