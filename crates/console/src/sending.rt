// Questions on the sender: one fragment of a packet, and all of them.
ghost use Rattle.std.specs.Prelude.{◌≤◌};
ghost use Rattle.console.specs.inner.Answered.{Answered};

use crate::{plans, replies, words};
use base::Refusal;

// The answer; none where the line is no question on the sender or malformed.
pub(crate) fn answer(asked: (&[u8], usize), line: &[u8], out: &mut [u8]) -> Option<usize>
    ensures { Answered out.old result out.new }
{
    match asked {
        (b"fragment", 8 | 9) => answer_one(line, out),
        (b"fragments", 7 | 8) => answer_wanted(line, out, None, 6),
        _ => None,
    }
}

// `fragment FEC M MTU ADDR PSEQ INDEX ROOM PACKET` is answered `fragment BYTES`, or `refused N`; `old` or
// `new` may stand behind PACKET.
fn answer_one(line: &[u8], out: &mut [u8]) -> Option<usize>
    ensures { Answered out.old result out.new }
{
    let index = words::decimal_at(line, 6)?;
    answer_wanted(line, out, Some(index), 7)
}

// `fragments FEC M MTU ADDR PSEQ ROOM PACKET` is answered `fragments BYTES`, or `refused N`, and `old` or
// `new` may stand behind PACKET; with an index, only that fragment is wanted, the words from ROOM on stand
// one further, and `at` says where.
fn answer_wanted(line: &[u8], out: &mut [u8], index: Option<usize>, at: usize) -> Option<usize>
    requires { at ≤ 7 }
    ensures { Answered out.old result out.new }
{
    let g = plans::settings(line, at + 2)?;
    let pseq = words::decimal_to(line, 5, 65535)?;
    let room = words::decimal_to(line, at, words::BYTES)?;
    answer_of(line, at + 1, out, g, pseq as u16, index, room)
}

// The same, of the packet that the word with that number says. Never made part of its caller, nor `send` of it: each lays out and clears its
// own buffer once, and only where it comes to that.
#[inline(never)]
fn answer_of(
    line: &[u8],
    at: usize,
    out: &mut [u8],
    g: cut::Settings,
    pseq: u16,
    index: Option<usize>,
    room: usize,
) -> Option<usize>
    requires { room ≤ 32768 }
    ensures { Answered out.old result out.new }
{
    let mut buffer = [0u8; words::BYTES];
    let packet = words::bytes_at(line, at, &mut buffer)?;
    send(out, g, pseq, packet, index, room)
}

// The fragment with that index of a packet, or all, in a buffer of so many bytes.
#[inline(never)]
fn send(
    out: &mut [u8],
    g: cut::Settings,
    pseq: u16,
    packet: &[u8],
    index: Option<usize>,
    room: usize,
) -> Option<usize>
    requires { room ≤ 32768 }
    ensures { Answered out.old result out.new }
{
    let mut buffer = words::zeros();
    let lent = &mut buffer[..room];
    match index {
        Some(index) => {
            let sent = sender::fragment(g, pseq, packet, index, lent);
            write_one(out, sent, lent)
        }
        None => {
            let sent = sender::fragments(g, pseq, packet, lent);
            write_all(out, sent, lent)
        }
    }
}

// The fragment at the front of what was lent, or the refusal.
fn write_one(out: &mut [u8], sent: Result<usize, Refusal>, lent: &[u8]) -> Option<usize>
    ensures { Answered out.old result out.new }
{
    match sent {
        Ok(n) => replies::front(out, b"fragment ", lent, n),
        Err(e) => Some(replies::refused(out, e)),
    }
}

// All fragments at the front of what was lent, or the refusal.
fn write_all(out: &mut [u8], sent: Result<sender::Split, Refusal>, lent: &[u8]) -> Option<usize>
    ensures { Answered out.old result out.new }
{
    match sent {
        Ok(split) => {
            let n = total(split)?;
            replies::front(out, b"fragments ", lent, n)
        }
        Err(e) => Some(replies::refused(out, e)),
    }
}

// The bytes of all fragments; none where they are more than a number says, as with no split of the sender's.
fn total(split: sender::Split) -> Option<usize> {
    let fragment = split.h.checked_add(split.s)?;
    let front = split.f.checked_sub(1)?.checked_mul(fragment)?;
    front.checked_add(split.h)?.checked_add(split.last)
}
