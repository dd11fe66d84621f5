// A class: the chunks of a block that miss the same places, and share what these need.
ghost use Rattle.std.specs.Prelude.{◌≡◌, ◌+◌, ◌≤◌, ◌<◌, length, take, drop};
ghost use Rattle.base_rules.specs.Bounds.{parity};
ghost use Rattle.base_rules.specs.Bytes.{part_of};
ghost use Rattle.code_rules.specs.inner.Words.{table-size};
ghost use Rattle.code_rules.specs.inner.Kernel.{Made, Multiples, roots_list};
ghost use Rattle.code_rules.specs.inner.Sharing.{Shared};
ghost use Rattle.code_rules.specs.inner.Block.{SameTest, Ready, AfterTurn, AfterClass};

use crate::chunk::fill_chunk_by;
use base::PARITY;
use code_encoder::TABLE;
use code_lanes::MULTIPLES;
use code_solver::{COLUMNS, locators_of, missing_count, pattern};

// Whether the parts at a and at b of the mask are the same. All bytes are compared, with no way out early, so that many go at a time.
fn same_mask(mask: &[u8], a: usize, b: usize, n: usize) -> bool
    requires { (a + n ≤ length mask.now) × (b + n ≤ length mask.now) }
    ensures { SameTest result (take n (drop a mask.now)) (take n (drop b mask.now)) }
{
    let mut same = true;
    for x in 0..n {
        if mask[a + x] != mask[b + x] {
            same = false;
        }
    }
    same
}

// The chunk j, if its answer is open and it misses what the chunk `from` misses.
fn fill_if_same(
    t: &[u8; TABLE],
    rk: &[u8; MULTIPLES],
    q: &[u8; COLUMNS],
    sc: &[u8; MULTIPLES],
    miss: usize,
    k: usize,
    mask: &[u8],
    block: &mut [u8],
    ans: &mut [u8],
    from: usize,
    j: usize,
)
    requires ready { Ready k mask.now (length ans.old) block.old × (from < length ans.old) × (j < length ans.old) }
    requires shared { Shared t.now rk.now q.now sc.now (part_of mask.now (k + parity) from) miss k }
    ensures { AfterTurn k from j mask.now block.old ans.old block.new ans.new }
{
    if 1 < ans[j] {
        let n = k + PARITY;
        let a = j * n;
        let e = a + n;
        if same_mask(mask, from * n, a, n) {
            // 0 where its missing bytes are found, 1 where not. A number above stands for a chunk that is open.
            let found = fill_chunk_by(t, rk, q, sc, miss, k, &mask[a..e], &mut block[a..e]);
            ans[j] = u8::from(!found);
        }
    }
}

// The chunk `from`, if its answer is open, and those behind it, hop apart, that share with it: what they share is made once.
pub fn fill_class(
    t: &[u8; TABLE],
    rk: &[u8; MULTIPLES],
    k: usize,
    mask: &[u8],
    block: &mut [u8],
    ans: &mut [u8],
    from: usize,
    hop: usize,
)
    requires ready { Ready k mask.now (length ans.old) block.old × (from < length ans.old) × (0 < hop) }
    requires made { Made t.now table-size × Multiples roots_list rk.now }
    ensures { AfterClass k from mask.now block.old ans.old block.new ans.new }
{
    if ans[from] < 2 {
        return;
    }
    let n = k + PARITY;
    let a = from * n;
    let e = a + n;
    let miss = missing_count(&mask[a..e]);
    let x = locators_of(k, &mask[a..e]);
    let mut q = [0u8; COLUMNS];
    let sc = pattern(x, miss, &mut q);
    for j in (from..ans.len()).step_by(hop) {
        fill_if_same(t, rk, &q, &sc, miss, k, mask, block, ans, from, j);
    }
}
