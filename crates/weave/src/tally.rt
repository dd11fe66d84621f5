// What the lost fragments take from each chunk, without a visit to every cell.
ghost use Rattle.std.specs.Prelude.{◌≡◌, ℕ, ◌+◌, ◌*◌, ◌≤◌, ◌<◌, get_or};
ghost use Rattle.base_rules.specs.Bounds.{most_f, place};
ghost use Rattle.weave_rules.specs.Calls.{bad_chunk, not_kept, enough_of, number_of};
ghost use Rattle.cut_rules.specs.Missing.{count, suffice};

use crate::{Held, bad_count, too_much};
use base::{MOST_F, PARITY, Refusal};

// The bytes that a chunk may miss: as many as it has parity.
const MISSED: usize = PARITY;

const SUMS: usize = MOST_F + 1;

// How many of the first i fragments are lost, for each i up to f.
fn sums_of(kept: [bool; MOST_F], f: usize) -> [usize; SUMS]
    requires { f ≤ most_f }
    ensures { (i : ℕ) → i ≤ f → get_or result i 0 ≡ count (not_kept kept) 0 i }
{
    let mut sums = [0usize; SUMS];
    let mut w = 0usize;
    for i in 0..f {
        w += usize::from(!kept[i]);
        sums[i + 1] = w;
    }
    sums
}

// Whether none of c chunks of n bytes misses more than 48: the cells gone before a place are the lost fragments once for each
// whole turn of f, and those of the last turn.
fn suffices(kept: [bool; MOST_F], f: usize, n: usize, c: usize) -> bool
    requires { (0 < f) × (f ≤ most_f) × (c * n ≤ place) }
    ensures { result ≡ suffice (not_kept kept) f n c }
{
    let sums = sums_of(kept, f);
    let w = sums[f];
    let mut before = 0;
    for j in 0..c {
        let q = (j + 1) * n;
        let upto = q / f * w + sums[q % f];
        if MISSED < upto - before {
            return false;
        }
        before = upto;
    }
    true
}

// Whether k is no chunk's size, or the f s cells hold no chunk.
fn bad_chunk(f: usize, s: usize, k: usize) -> bool
    requires { f * s ≤ place }
    ensures { result ≡ bad_chunk f s k }
{
    base::bad_k(k) || f * s < k + PARITY
}

// Whether the fragments kept, of f with s bytes each, suffice for every chunk of k data bytes; 7 or 8 where the figures cannot be.
pub fn enough(kept: [bool; MOST_F], f: usize, s: usize, k: usize) -> Result<Held, Refusal>
    ensures { number_of result ≡ enough_of kept f s k }
{
    if bad_count(f) {
        return Err(Refusal::Count);
    }
    if too_much(f, s) {
        return Err(Refusal::Size);
    }
    if bad_chunk(f, s, k) {
        return Err(Refusal::Size);
    }
    let n = k + PARITY;
    if suffices(kept, f, n, f * s / n) {
        Ok(Held::Enough)
    } else {
        Ok(Held::NotEnough)
    }
}
