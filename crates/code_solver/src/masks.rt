// Masks: a byte for each byte of a chunk, not 0 where that is missing. Bytes and no flags, since a caller of the decoder may lend any.
ghost use Rattle.std.specs.Prelude.{◌≡◌, cond, ◌+◌, ◌≤◌, ◌<◌, eqb, length, get_or};
ghost use Rattle.base_rules.specs.Bounds.{most_k, parity};
ghost use Rattle.codeword.specs.Code.{full};
ghost use Rattle.codeword.specs.Erasure.{marks, erase, count, fill, locators};
ghost use Rattle.code_rules.specs.inner.Solving.{lanes_of, locators_by};

use base::{MOST_K, PARITY};

// The bytes of a word of the code before it is shortened.
const FULL: usize = MOST_K + PARITY;

// How many bytes the mask marks as missing.
pub fn missing_count(mask: &[u8]) -> usize
    ensures { result ≡ count (marks mask.now) }
{
    let mut n = 0;
    // A loop, since it is done many bytes at a time; a filter that is counted goes byte by byte.
    for m in mask {
        if *m != 0 {
            n += 1;
        }
    }
    n
}

// The locators of the first 48 places that the mask marks, 0 behind them.
fn locate(mask: &[u8; FULL]) -> [u8; PARITY]
    requires { length mask.now ≡ most_k + parity }
    ensures { result ≡ lanes_of (locators (marks mask.now)) }
{
    let mut xs = [0u8; PARITY];
    let mut e = 0;
    for (i, m) in mask.iter().enumerate() {
        if *m != 0 && e < PARITY {
            xs[e] = field::power(FULL - 1 - i);
            e += 1;
        }
    }
    xs
}

// The values at the places that the mask marks, as far as the mask and the word both go.
pub fn fill_in(mask: &[u8], vs: &[u8], word: &mut [u8])
    ensures { word.new ≡ fill (marks mask.now) word.old vs.now }
{
    let mut k = 0;
    // An index, since the mask is read at it and the word written.
    for i in 0..mask.len().min(word.len()) {
        if mask[i] != 0 {
            word[i] = base::byte_at(vs, k);
            k += 1;
        }
    }
}

// The 255 places of a chunk.
fn spread(k: usize, c: &[u8]) -> [u8; FULL]
    requires { (k ≤ most_k) × (length c.now ≡ k + parity) }
    ensures { result ≡ full 0 k c.now }
{
    let mut w = [0u8; FULL];
    w[..k].copy_from_slice(&c[..k]);
    w[MOST_K..].copy_from_slice(&c[k..]);
    w
}

// The byte b, or 0 where it is missing.
fn kept(m: u8, b: u8) -> u8
    ensures { result ≡ cond (eqb m 0) b 0 }
{
    if m == 0 { b } else { 0 }
}

// 0 at each missing place, as far as the mask and c both go.
pub fn clear(mask: &[u8], c: &mut [u8])
    ensures { c.new ≡ erase (marks mask.now) c.old }
{
    // An index, since one array is read at it and the other written.
    for i in 0..mask.len().min(c.len()) {
        c[i] = kept(mask[i], c[i]);
    }
}

// The locators of the first 48 missing places of a chunk of k data bytes; zeros where the mask is not one of such a chunk.
pub fn locators_of(k: usize, mask: &[u8]) -> [u8; PARITY]
    ensures { result ≡ locators_by k mask.now }
{
    if MOST_K < k {
        return [0u8; PARITY];
    }
    if mask.len() != k + PARITY {
        return [0u8; PARITY];
    }
    let m = spread(k, mask);
    locate(&m)
}
