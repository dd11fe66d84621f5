// The sender's calls: the parity of a chunk, and the block of a packet.
ghost use Rattle.std.specs.Prelude.{◌≡◌, ◌+◌, ◌-◌, ◌*◌, ◌≤◌, length};
ghost use Rattle.base_rules.specs.Answer.{outcome};
ghost use Rattle.base_rules.specs.Bounds.{most_k, place, parity};
ghost use Rattle.base_rules.specs.Written.{number_of};
ghost use Rattle.cut_rules.specs.Block.{padded, block_of};
ghost use Rattle.codeword.specs.Code.{parity_of};
ghost use Rattle.code_rules.specs.Calls.{parity_call, over_place, misfits, encode_call};

use crate::blocks::encode_block;
use crate::made::MadeTable;
use crate::rows::TABLE;
use base::{PARITY, PLACE, Refusal};

// Writes the 48 parity bytes of a chunk of 1 to 207 data bytes at the front of out; 8, 1 where that cannot be, and then out stays as it is.
pub fn parity(chunk: &[u8], out: &mut [u8]) -> Result<(), Refusal>
    ensures { outcome (number_of result) out.new ≡ parity_call chunk.now out.old }
{
    if base::bad_k(chunk.len()) {
        return Err(Refusal::Size);
    }
    let mut bytes = [0u8; TABLE];
    let p = MadeTable::make(&mut bytes).parity(chunk);
    base::put(out, 0, &p)
}

// Whether c chunks of k bytes and their parity are more than a place holds; c is looked at first, so that the product fits.
fn over_place(k: usize, c: usize) -> bool
    requires { k ≤ most_k }
    ensures { result ≡ over_place k c }
{
    PLACE < c || PLACE < c * (k + PARITY)
}

// Whether a packet of l bytes does not end in the last of c chunks of k bytes; none ends in no chunk.
fn misfit(l: usize, k: usize, c: usize) -> bool
    requires { c * k ≤ place }
    ensures { result ≡ misfits l k c }
{
    c == 0 || c * k < l || k <= c * k - l
}

// The packet, and zeros up to a place's end.
fn pad(packet: &[u8]) -> [u8; PLACE]
    requires { length packet.now ≤ place }
    ensures { result ≡ padded packet.now (place - length packet.now) }
{
    let mut w = [0u8; PLACE];
    // It is no longer than a place, so it is not refused.
    let _ = base::put(&mut w, 0, packet);
    w
}

// The block of c chunks of k bytes, which has all of out.
fn write_block(packet: &[u8], k: usize, c: usize, out: &mut [u8])
    requires { (k ≤ most_k) × (length packet.now ≤ c * k) × (c * k ≤ place) × (length out.old ≡ c * (k + parity)) }
    ensures { out.new ≡ block_of parity_of (padded packet.now (c * k - length packet.now)) k c }
{
    let mut bytes = [0u8; TABLE];
    let t = MadeTable::make(&mut bytes);
    let w = pad(packet);
    let a = c * k;
    encode_block(t, k, c, &w[..a], out);
}

// Writes the block of a packet at the front of out: c chunks of k bytes, the packet and its zeros, each chunk followed by its parity;
// 8, 1 where that cannot be, and then out stays as it is.
pub fn encode(packet: &[u8], k: usize, c: usize, out: &mut [u8]) -> Result<(), Refusal>
    ensures { outcome (number_of result) out.new ≡ encode_call packet.now k c out.old }
{
    if base::bad_k(k) || over_place(k, c) || misfit(packet.len(), k, c) {
        return Err(Refusal::Size);
    }
    let all = c * (k + PARITY);
    if out.len() < all {
        return Err(Refusal::Room);
    }
    write_block(packet, k, c, &mut out[..all]);
    Ok(())
}
