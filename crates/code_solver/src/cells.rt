// Which cells of a block are missing.
ghost use Rattle.std.specs.Prelude.{◌≡◌, ◌+◌, ◌%◌, ◌≤◌, ◌<◌, length};
ghost use Rattle.base_rules.specs.Bounds.{most_f};
ghost use Rattle.base_rules.specs.Bytes.{splice};
ghost use Rattle.code_rules.specs.Calls.{lost_cells};
ghost use Rattle.code_rules.specs.inner.Solving.{lost_by};

use base::MOST_F;

// The masks of the m cells from `at` on, the first of a row: one cell of each fragment.
fn mark_row(kept: &[bool; MOST_F], f: usize, at: usize, m: usize, mask: &mut [u8])
    requires { (at % f ≡ 0) × (m ≤ f) × (f ≤ most_f) × (at + m ≤ length mask.old) }
    ensures { mask.new ≡ splice mask.old at (lost_cells kept.now f at m) }
{
    // An index, since the fragments are read at it and the mask is written behind `at`.
    for i in 0..m {
        mask[at + i] = u8::from(!kept[i]);
    }
}

// The masks of the first n cells: 1 where the cell's fragment is not kept. Whole rows and the rest: no cell costs a division, and none
// waits for the one before.
fn mark_cells(kept: [bool; MOST_F], f: usize, n: usize, mask: &mut [u8])
    requires { (0 < f) × (f ≤ most_f) × (n ≤ length mask.old) }
    ensures { mask.new ≡ splice mask.old 0 (lost_cells kept f 0 n) }
{
    let rows = n / f;
    for o in 0..rows {
        mark_row(&kept, f, o * f, f, mask);
    }
    mark_row(&kept, f, rows * f, n % f, mask);
}

// The same for any figures: where f is no count of fragments, or the mask has not n places, it stays as it is.
pub fn mark_lost(kept: [bool; MOST_F], f: usize, n: usize, mask: &mut [u8])
    ensures { mask.new ≡ lost_by kept f n mask.old }
{
    if f == 0 {
        return;
    }
    if MOST_F < f {
        return;
    }
    if mask.len() < n {
        return;
    }
    mark_cells(kept, f, n, mask);
}
