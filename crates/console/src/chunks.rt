// Questions on chunks: the parity bytes of one, and its missing bytes.
ghost use Rattle.std.specs.Prelude.{◌+◌, ◌≤◌, length};
ghost use Rattle.base_rules.specs.Bounds.{most_k, parity};
ghost use Rattle.console.specs.inner.Answered.{Answered};

use crate::{replies, words};
use base::Refusal;
use code_decoder::Filled;

// The bytes of the longest chunk, with its parity bytes.
pub(crate) const CHUNK: usize = base::MOST_K + base::PARITY;

// The answer; none where the line is no question on chunks or malformed.
pub(crate) fn answer(asked: (&[u8], usize), line: &[u8], out: &mut [u8]) -> Option<usize>
    ensures { Answered out.old result out.new }
{
    match asked {
        (b"parity", 1) => answer_parity(line, out),
        (b"fill", 3) => answer_fill(line, out),
        _ => None,
    }
}

// `parity DATA` is answered `parity BYTES`. The code refuses a length that no chunk has, and that
// is a malformed word here.
fn answer_parity(line: &[u8], out: &mut [u8]) -> Option<usize>
    ensures { Answered out.old result out.new }
{
    let mut buffer = [0u8; base::MOST_K];
    let bytes = words::bytes_at(line, 1, &mut buffer)?;
    let mut sum = [0u8; base::PARITY];
    let written = code_encoder::parity(bytes, &mut sum);
    write_parity(out, written, &sum)
}

// `fill K POSITIONS CHUNK` is answered `filled CHUNK`, `none` or `notenough`. The positions are
// held to the bytes that were given; that these are K and the parity, the code tests.
fn answer_fill(line: &[u8], out: &mut [u8]) -> Option<usize>
    ensures { Answered out.old result out.new }
{
    let k = words::decimal_at(line, 1)?;
    let positions = words::nth(line, 2)?;
    let mut chunk = [0u8; CHUNK];
    let n = words::bytes_at(line, 3, &mut chunk)?.len();
    fill_and_write(out, k, positions, &mut chunk[..n])
}

// The answer for the bytes of a chunk of k data bytes, of which those at the positions are missing.
fn fill_and_write(out: &mut [u8], k: usize, positions: &[u8], chunk: &mut [u8]) -> Option<usize>
    requires { length chunk.old ≤ most_k + parity }
    ensures { Answered out.old result out.new }
{
    let n = chunk.len();
    let mut mask = [0u8; CHUNK];
    mark_all(positions, &mut mask[..n])?;
    let filled = code_decoder::fill_chunk(k, &mask[..n], chunk);
    write_filled(out, filled, chunk)
}

// Marks the positions of a word `i,j,..`, `-` for none; none where the word is malformed or has a
// position that is none of the mask's.
fn mark_all(word: &[u8], mask: &mut [u8]) -> Option<()> {
    if word == b"-".as_slice() {
        return Some(());
    }
    for position in word.split(|letter| *letter == b',') {
        let at = words::decimal(position)?;
        *mask.get_mut(at)? = 1;
    }
    Some(())
}

// The parity bytes, where there are any.
fn write_parity(out: &mut [u8], written: Result<(), Refusal>, sum: &[u8]) -> Option<usize>
    ensures { Answered out.old result out.new }
{
    match written {
        Ok(()) => Some(replies::bytes(out, b"parity ", sum)),
        Err(_) => None,
    }
}

// What became of the missing bytes. Sizes that do not fit each other are a malformed line.
fn write_filled(out: &mut [u8], filled: Result<Filled, Refusal>, chunk: &[u8]) -> Option<usize>
    ensures { Answered out.old result out.new }
{
    match filled {
        Ok(Filled::Done) => Some(replies::bytes(out, b"filled ", chunk)),
        Ok(Filled::Nothing) => Some(replies::word(out, b"none")),
        Ok(Filled::NotEnough) => Some(replies::word(out, b"notenough")),
        Err(_) => None,
    }
}
