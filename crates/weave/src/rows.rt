// Interleaving: a block's bytes to fragments, and fragments to a block's cells again. No byte costs a division.
ghost use Rattle.std.specs.Prelude.{◌≡◌, ℕ, ◌+◌, ◌-◌, ◌*◌, ◌≤◌, ◌<◌, length};
ghost use Rattle.base_rules.specs.Answer.{outcome};
ghost use Rattle.base_rules.specs.Bounds.{most_f, place};
ghost use Rattle.base_rules.specs.Bytes.{splice};
ghost use Rattle.base_rules.specs.Table.{table};
ghost use Rattle.base_rules.specs.Written.{number_of};
ghost use Rattle.weave_rules.specs.Calls.{interleave_of, deinterleave_of};
ghost use Rattle.cut_rules.specs.Cells.{fragment_of, cell_of, cells_of};

use crate::{bad_count, too_much};
use base::Refusal;

// How many of the s bytes of fragment i lie in a block of `len` bytes: those before are copied, those after are zero.
fn rows_within(len: usize, f: usize, s: usize, i: usize) -> usize
    requires { 0 < f }
    ensures { (result ≤ s) × ((t : ℕ) → t < result → i + f * t < len) × ((t : ℕ) → result ≤ t → t < s → len ≤ i + f * t) }
{
    if len <= i {
        return 0;
    }
    s.min((len - i - 1) / f + 1)
}

// Every f-th byte of the block from i on, `rows` of them, at the front of out.
fn pick(block: &[u8], f: usize, i: usize, rows: usize, out: &mut [u8])
    requires { (f ≤ most_f) × (rows ≤ length out.old) × ((t : ℕ) → t < rows → i + f * t < length block.now) }
    ensures { out.new ≡ splice out.old 0 (fragment_of block.now f rows i) }
{
    // An index, since the bytes read lie f apart.
    for t in 0..rows {
        out[t] = block[i + f * t];
    }
}

// Writes fragment i of f, of s bytes, at the front of out; 7, 8 (a block longer than the f s cells too), 42, 1 where that cannot be, and then
// out stays as it is.
pub fn interleave(block: &[u8], f: usize, s: usize, i: usize, out: &mut [u8]) -> Result<(), Refusal>
    ensures { outcome (number_of result) out.new ≡ interleave_of block.now f s i out.old }
{
    if bad_count(f) {
        return Err(Refusal::Count);
    }
    if too_much(f, s) {
        return Err(Refusal::Size);
    }
    if f * s < block.len() {
        return Err(Refusal::Size);
    }
    if f <= i {
        return Err(Refusal::Index);
    }
    if out.len() < s {
        return Err(Refusal::Room);
    }
    let rows = rows_within(block.len(), f, s, i);
    pick(block, f, i, rows, out);
    out[rows..s].fill(0);
    Ok(())
}

// Row o of the cells: byte o of each fragment, one fragment after the other.
fn lay_row(held: &[u8], f: usize, s: usize, o: usize, out: &mut [u8])
    requires { (o < s) × (f * s ≤ place) × (f * s ≤ length held.now) × (f * s ≤ length out.old) }
    ensures { out.new ≡ splice out.old (o * f) (table (cell_of held.now f s) (o * f) f) }
{
    let at = o * f;
    // An index, since the bytes read lie s apart.
    for r in 0..f {
        out[at + r] = held[r * s + o];
    }
}

// All s rows.
fn lay(held: &[u8], f: usize, s: usize, out: &mut [u8])
    requires { (f * s ≤ place) × (f * s ≤ length held.now) × (f * s ≤ length out.old) }
    ensures { out.new ≡ splice out.old 0 (cells_of held.now f s) }
{
    for o in 0..s {
        lay_row(held, f, s, o, out);
    }
}

// Writes the f s cells of the fragments held, fragment i from i s on, at the front of out; 7, 8, 1 where that cannot be.
pub fn deinterleave(held: &[u8], f: usize, s: usize, out: &mut [u8]) -> Result<(), Refusal>
    ensures { outcome (number_of result) out.new ≡ deinterleave_of held.now f s out.old }
{
    if bad_count(f) {
        return Err(Refusal::Count);
    }
    if too_much(f, s) {
        return Err(Refusal::Size);
    }
    let all = f * s;
    if held.len() < all {
        return Err(Refusal::Room);
    }
    if out.len() < all {
        return Err(Refusal::Room);
    }
    lay(held, f, s, out);
    Ok(())
}
