// The code's block calls for C.
ghost use Rattle.std.specs.Prelude.{◌≡◌};
ghost use Rattle.code_rules.specs.Calls.{encode_call};
ghost use Rattle.card_rules.specs.Told.{CardWritten};
ghost use Rattle.card_rules.specs.Blocks.{is_kept, kept_of, filled_number, CardFilled};

use crate::{refused, written_number};
use base::{MOST_F, Refusal};
use code_decoder::Filled;

// The number of a filling's answer; no refusal has 256 or 257.
fn filled_number(a: Result<Filled, Refusal>) -> usize
    ensures { result ≡ filled_number a }
{
    match a {
        Ok(filled) => match filled {
            Filled::Done => 0,
            Filled::Nothing => 256,
            Filled::NotEnough => 257,
        },
        Err(e) => refused(e),
    }
}

// Whether byte i is there and is not 0.
fn is_kept(bytes: &[u8], i: usize) -> bool
    ensures { result ≡ is_kept bytes.now i }
{
    base::byte_at(bytes, i) != 0
}

// Which fragments are kept: one byte each, and none past the bytes' end.
fn kept_of(bytes: &[u8]) -> [bool; MOST_F]
    ensures { result ≡ kept_of bytes.now }
{
    let mut kept = [false; MOST_F];
    for (i, k) in kept.iter_mut().enumerate() {
        *k = is_kept(bytes, i);
    }
    kept
}

// Writes the block of a packet at the front of out, c chunks of k bytes with their parity, and gives 0; else the number of the refusal.
pub fn bailhammer_encode(packet: &[u8], k: usize, c: usize, out: &mut [u8]) -> usize
    ensures { CardWritten (encode_call packet.now k c out.old) out.new result }
{
    let w = code_encoder::encode(packet, k, c, out);
    written_number(w)
}

// Fills in the missing cells of a block of f fragments of s bytes, of which those with a byte that is not 0 are kept, and gives 0; 256
// where no word of the code agrees, 257 where too few are kept, else the number of the refusal.
pub fn bailhammer_fill(kept: &[u8], f: usize, s: usize, k: usize, block: &mut [u8]) -> usize
    ensures { CardFilled kept.now f s k block.old block.new result }
{
    let a = code_decoder::fill(kept_of(kept), f, s, k, block);
    filled_number(a)
}
