// One chunk, with what its class shares: the chunks that miss the same places.
ghost use Rattle.std.specs.Prelude.{◌≡◌, ◌+◌, length};
ghost use Rattle.base_rules.specs.Bounds.{parity};
ghost use Rattle.code_rules.specs.inner.Sharing.{ZeroTest, Shared};
ghost use Rattle.code_rules.specs.inner.Block.{ChunkTried};

use base::PARITY;
use code_encoder::{TABLE, remainder_of};
use code_lanes::MULTIPLES;
use code_solver::{COLUMNS, fill_in, solve, syndromes_at};

// Whether all 48 are zero.
fn is_zero(r: [u8; PARITY]) -> bool
    ensures { ZeroTest r result }
{
    r.iter().all(|x| *x == 0)
}

// Puts in the missing bytes, which are 0 in the chunk, and tells whether it is then one of the code. Where it is not, none agrees.
pub fn fill_chunk_by(
    t: &[u8; TABLE],
    rk: &[u8; MULTIPLES],
    q: &[u8; COLUMNS],
    sc: &[u8; MULTIPLES],
    miss: usize,
    k: usize,
    mask: &[u8],
    chunk: &mut [u8],
) -> bool
    requires { Shared t.now rk.now q.now sc.now mask.now miss k × (length chunk.old ≡ k + parity) }
    ensures { ChunkTried k mask.now chunk.old chunk.new result }
{
    let r = remainder_of(t, k, chunk);
    let s = syndromes_at(rk, r);
    let y = solve(q, sc, miss, s);
    fill_in(mask, &y[..miss], chunk);
    is_zero(remainder_of(t, k, chunk))
}
