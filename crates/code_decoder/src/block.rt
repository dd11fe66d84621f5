// All chunks of a block.
ghost use Rattle.std.specs.Prelude.{◌+◌, ◌*◌, ◌<◌, length};
ghost use Rattle.base_rules.specs.Bounds.{parity};
ghost use Rattle.code_rules.specs.inner.Block.{Ready, FoundTest, AfterClasses, BlockTried};
ghost use Rattle.code_rules.specs.Calls.{lost_cells};
ghost use Rattle.code_rules.specs.inner.Standing.{Holds};

use crate::class::fill_class;
use base::{MOST_F, PARITY, PLACE};
use code_encoder::{TABLE, make_table};
use code_solver::{clear, make_roots, mark_lost};

// No block has more chunks.
const MOST_C: usize = PLACE / PARITY;

// In place of an answer, where a chunk has none yet.
const OPEN: u8 = 3;

// Whether the answer of each chunk is that its missing bytes are found.
fn all_found(ans: &[u8]) -> bool
    ensures { FoundTest ans.now result }
{
    ans.iter().all(|a| *a == 0)
}

// Each chunk with its class: those that lie hop apart and miss the same places share what these need. Tells whether all are filled in.
fn fill_classes(k: usize, mask: &[u8], hop: usize, block: &mut [u8], ans: &mut [u8]) -> bool
    requires { Ready k mask.now (length ans.old) block.old × (0 < hop) }
    ensures { AfterClasses k mask.now block.old ans.old block.new ans.new result }
{
    let mut t = [0u8; TABLE];
    make_table(&mut t);
    let rk = make_roots();
    // An index, since the call takes it, with the answers of all chunks.
    for i in 0..ans.len() {
        fill_class(&t, &rk, k, mask, block, ans, i, hop);
    }
    all_found(ans)
}

// The missing bytes of c chunks, by their masks; where one chunk has no filling, all missing bytes are 0 after it. They are set to 0 for
// all chunks at once, since what is put in is found with zeros there.
pub fn fill_block(k: usize, c: usize, mask: &[u8], hop: usize, block: &mut [u8]) -> bool
    requires { Ready k mask.now c block.old × (0 < hop) }
    ensures { BlockTried k mask.now c block.old block.new result }
{
    clear(mask, block);
    let mut ans = [OPEN; MOST_C];
    if fill_classes(k, mask, hop, block, &mut ans[..c]) {
        return true;
    }
    clear(mask, block);
    false
}

// The missing cells of the c chunks that are all of the block, where f fragments were sent and those kept suffice.
pub fn fill_lost(kept: [bool; MOST_F], f: usize, k: usize, c: usize, block: &mut [u8]) -> bool
    requires { Holds kept f k c block.old }
    ensures { BlockTried k (lost_cells kept f 0 (c * (k + parity))) c block.old block.new result }
{
    let mut mask = [0u8; PLACE];
    let all = c * (k + PARITY);
    mark_lost(kept, f, all, &mut mask);
    fill_block(k, c, &mask[..all], f, block)
}
