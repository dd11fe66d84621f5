// Chunks with their parity, one behind the other.
ghost use Rattle.std.specs.Prelude.{◌≡◌, ◌+◌, ◌≤◌, ◌<◌, length};
ghost use Rattle.base_rules.specs.Bounds.{most_k, parity};
ghost use Rattle.codeword.specs.Code.{encode};
ghost use Rattle.code_rules.specs.inner.Block.{Encoded, EncSized, OneEncoded};

use crate::made::MadeTable;
use base::PARITY;

// The chunk of the data bytes d: the data and their parity.
fn encode_chunk(t: MadeTable, d: &[u8], out: &mut [u8])
    requires { (length d.now ≤ most_k) × (length out.old ≡ length d.now + parity) }
    ensures { out.new ≡ encode d.now }
{
    let p = t.parity(d);
    // There is room for both, so neither is refused.
    let _ = base::put(out, 0, d);
    let _ = base::put(out, d.len(), &p);
}

// The chunk j of the block.
fn encode_one(t: MadeTable, k: usize, c: usize, src: &[u8], out: &mut [u8], j: usize)
    requires { EncSized k c src.now out.old × (j < c) }
    ensures { OneEncoded k c j src.now out.old out.new }
{
    let n = k + PARITY;
    let a = j * k;
    let b = a + k;
    let f = j * n;
    let e = f + n;
    encode_chunk(t, &src[a..b], &mut out[f..e]);
}

// The block's encoder: c chunks of k data bytes each.
pub fn encode_block(t: MadeTable, k: usize, c: usize, src: &[u8], out: &mut [u8])
    requires { EncSized k c src.now out.old }
    ensures { Encoded k c src.now out.new }
{
    for j in 0..c {
        encode_one(t, k, c, src, out, j);
    }
}
