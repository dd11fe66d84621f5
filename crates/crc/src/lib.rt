// The CRC of Annex A: byte by byte over short data, and eight bytes a step over the rest.
#![tactic(auto)]

ghost use Rattle.std.specs.Prelude.{◌≡◌, ◌-◌, ◌*◌, ◌/◌, ◌<◌, eqb, length};
ghost use Rattle.crc_rules.specs.Crc.{ones, residue, feed, register_of, word_of};
ghost use Rattle.crc_rules.specs.inner.Shifts.{shift};
ghost use Rattle.crc_rules.specs.inner.Halves.{rounds, Halves};

mod table;

// What a bit that falls out of the register adds: 1021 hex.
const POLYNOMIAL: u16 = 4129;
// The register all ones.
const ONES: u16 = 65535;
// The register after data and their CRC as sent: 1D0F hex.
const RESIDUE: u16 = 7439;
// Data below this length go byte by byte: there is no step of eight to take.
const SHORT: usize = 8;

// One shift of the register without data.
fn shifted(r: u16) -> u16
    ensures { result ≡ shift r }
{
    if r < 32768 {
        r * 2
    } else {
        ((r - 32768) * 2) ^ POLYNOMIAL
    }
}

// One byte more, added to the high half at once. The eight shifts are a loop, since the compiler makes a table look-up of that.
fn fed(r: u16, b: u8) -> u16
    ensures { result ≡ feed r b }
{
    let mut q = r ^ (b as u16 * 256);
    for _ in 0u8..8 {
        q = shifted(q);
    }
    q
}

// All bytes, one after another.
fn by_bytes(start: u16, bytes: &[u8]) -> u16
    ensures { result ≡ register_of start bytes.now }
{
    let mut r = start;
    for b in bytes {
        r = fed(r, *b);
    }
    r
}

// The byte of the register that meets the next byte of data.
fn high(r: u16) -> u8
    ensures { result ≡ r / 256 }
{
    (r / 256) as u8
}

// The table by which eight bytes are taken in one step, with its rule.
#[derive(Drop)]
struct HalfBytes {
    entries: [u16; 256],
    ghost right: { Halves entries },
}

impl HalfBytes {
    // What byte b of eight, if it is x, adds to the register after the eight.
    fn share(&self, b: usize, x: u8) -> u16
        requires { b < 8 }
        ensures { result ≡ rounds (8 - b) (x * 256) }
    {
        let at = b * 32;
        let v = usize::from(x);
        self.entries[at + v % 16] ^ self.entries[at + 16 + v / 16]
    }

    // Eight bytes more. The register goes in with the first two: `sum` is what the bytes so far add to the result, r what is left to go in.
    fn eight(&self, start: u16, p: &[u8; 8]) -> u16
        ensures { result ≡ register_of start p.now }
    {
        let mut sum = 0u16;
        let mut r = start;
        for (b, x) in p.iter().enumerate() {
            sum = sum ^ self.share(b, high(r) ^ *x);
            r = r % 256 * 256;
        }
        sum ^ r
    }

    // All bytes, eight a step; what is left, seven at most, goes one after another.
    fn register(&self, start: u16, bytes: &[u8]) -> u16
        ensures { result ≡ register_of start bytes.now }
    {
        let (eights, rest) = bytes.as_chunks::<8>();
        let mut r = start;
        for p in eights {
            r = self.eight(r, p);
        }
        by_bytes(r, rest)
    }
}

// The register after `bytes`.
pub fn register(start: u16, bytes: &[u8]) -> u16
    ensures { result ≡ register_of start bytes.now }
{
    if bytes.len() < SHORT {
        return by_bytes(start, bytes);
    }
    // Named once, and lent: each naming lays all of it out anew.
    let halves = HalfBytes {
        entries: table::HALVES,
    };
    halves.register(start, bytes)
}

// The CRC of `bytes` as it is sent.
pub fn word(bytes: &[u8]) -> u16
    ensures { result ≡ word_of bytes.now }
{
    ONES - register(ONES, bytes)
}

// Whether the last two bytes are the CRC, as sent, of those before them: the register over all is 1D0F.
// Of under two bytes it is false.
pub fn intact(bytes: &[u8]) -> bool
    ensures { result ≡ eqb (register_of ones bytes.now) residue }
{
    register(ONES, bytes) == RESIDUE
}
