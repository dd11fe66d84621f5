// The receiver's calls: the missing bytes of a chunk, and of a block.
ghost use Rattle.std.specs.Prelude.{◌≡◌};
ghost use Rattle.code_rules.specs.Calls.{bad_pair, ChunkFilled, BlockFilled};
ghost use Rattle.code_rules.specs.inner.Standing.{Standing};

use crate::Filled;
use crate::block::{fill_block, fill_lost};
use base::{MOST_F, PARITY, Refusal};
use code_solver::missing_count;
use weave::Held;

// Whether k is no chunk's size, or mask and chunk have not k + 48 bytes.
fn bad_pair(k: usize, mask: usize, chunk: usize) -> bool
    ensures { result ≡ bad_pair k mask chunk }
{
    if base::bad_k(k) {
        return true;
    }
    if mask != k + PARITY {
        return true;
    }
    chunk != k + PARITY
}

// Fills in the missing bytes of a chunk of k data bytes and 48 parity bytes: those whose byte of the mask is not 0. Where no chunk of
// the code has the other bytes, the missing ones are 0 after it; 8 where the sizes cannot be.
#[tactic(auto, using(code_rules::proofs::CallCases::chunk_short))]
pub fn fill_chunk(k: usize, mask: &[u8], chunk: &mut [u8]) -> Result<Filled, Refusal>
    ensures { ChunkFilled k mask.now chunk.old chunk.new result }
{
    if bad_pair(k, mask.len(), chunk.len()) {
        return Err(Refusal::Size);
    }
    if PARITY < missing_count(mask) {
        return Ok(Filled::NotEnough);
    }
    if fill_block(k, 1, mask, 1, chunk) {
        return Ok(Filled::Done);
    }
    Ok(Filled::Nothing)
}

// The same with sound figures, and whether the fragments kept suffice.
fn fill_cells(
    kept: [bool; MOST_F],
    f: usize,
    s: usize,
    k: usize,
    enough: bool,
    block: &mut [u8],
) -> Result<Filled, Refusal>
    requires { Standing kept f s k enough }
    ensures { BlockFilled kept f s k block.old block.new result }
{
    let n = k + PARITY;
    let c = f * s / n;
    let all = c * n;
    if block.len() < all {
        return Err(Refusal::Room);
    }
    if enough {
        if fill_lost(kept, f, k, c, &mut block[..all]) {
            return Ok(Filled::Done);
        }
        return Ok(Filled::Nothing);
    }
    Ok(Filled::NotEnough)
}

// Fills in the missing cells of a block: f fragments of s bytes were sent, cell q is missing where fragment q mod f is not kept, and the
// block is the cells' chunks of k data bytes and 48 parity bytes. Where one chunk has no filling, the missing cells of all chunks are
// 0 after it; 7, 8, 1 where the figures cannot be.
pub fn fill(
    kept: [bool; MOST_F],
    f: usize,
    s: usize,
    k: usize,
    block: &mut [u8],
) -> Result<Filled, Refusal>
    ensures { BlockFilled kept f s k block.old block.new result }
{
    match weave::enough(kept, f, s, k)? {
        Held::Enough => fill_cells(kept, f, s, k, true, block),
        Held::NotEnough => fill_cells(kept, f, s, k, false, block),
    }
}
