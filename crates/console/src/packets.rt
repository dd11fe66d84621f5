// Questions on AF packets: what one says of itself, the packet of a payload, and the listing of one.
ghost use Rattle.std.specs.Prelude.{◌≤◌, length};
ghost use Rattle.text_rules.specs.Wrote.{Wrote};
ghost use Rattle.console.specs.inner.Answered.{Answered};

use crate::{replies, words};
use base::Refusal;

// The answer; none where the line is no question on AF packets or malformed.
pub(crate) fn answer(asked: (&[u8], usize), line: &[u8], out: &mut [u8]) -> Option<usize>
    ensures { Answered out.old result out.new }
{
    match asked {
        (b"afcheck", 1) => answer_check(line, out),
        (b"afwrap", 4) => answer_wrap(line, out),
        (b"list", 1) => answer_list(line, out),
        _ => None,
    }
}

// `afcheck BYTES` is answered `af seq= cf= rev= len=` with the figures, or `refused N`.
fn answer_check(line: &[u8], out: &mut [u8]) -> Option<usize>
    ensures { Answered out.old result out.new }
{
    let mut buffer = [0u8; words::BYTES];
    let packet = words::bytes_at(line, 1, &mut buffer)?;
    Some(write_checked(out, af::check(packet)))
}

// The figures, or the refusal.
fn write_checked(out: &mut [u8], checked: Result<af::Figures, Refusal>) -> usize
    ensures { Wrote out.old 0 result out.new }
{
    match checked {
        Ok(figures) => write_figures(out, figures),
        Err(e) => replies::refused(out, e),
    }
}

// `afwrap SEQ CF ROOM PAYLOAD` is answered `packet BYTES`, or `refused N`.
fn answer_wrap(line: &[u8], out: &mut [u8]) -> Option<usize>
    ensures { Answered out.old result out.new }
{
    let seq = words::decimal_to(line, 1, 65535)?;
    let cf = words::decimal_to(line, 2, 1)?;
    let room = words::decimal_to(line, 3, words::BYTES)?;
    let mut buffer = [0u8; words::BYTES];
    let payload = words::bytes_at(line, 4, &mut buffer)?;
    let mut packet = words::zeros();
    wrap_and_write(out, seq as u16, cf == 1, payload, &mut packet[..room])
}

// The packet of a payload in the buffer that is lent for it.
fn wrap_and_write(
    out: &mut [u8],
    seq: u16,
    cf: bool,
    payload: &[u8],
    room: &mut [u8],
) -> Option<usize>
    requires { length payload.now ≤ 32768 }
    ensures { Answered out.old result out.new }
{
    let written = af::wrap(seq, cf, payload, room);
    replies::written(
        out,
        b"packet ",
        written,
        room,
        base::LEAST_L + payload.len(),
    )
}

// `list BYTES` is answered `list OUTPUT`: the listing, with `_` for a blank and `|` for a newline.
fn answer_list(line: &[u8], out: &mut [u8]) -> Option<usize>
    ensures { Answered out.old result out.new }
{
    let mut buffer = [0u8; words::BYTES];
    let packet = words::bytes_at(line, 1, &mut buffer)?;
    Some(write_listing(out, packet))
}

// The listing in a buffer that has room for it: no listing has more letters than `lister::LISTING`.
fn write_listing(out: &mut [u8], packet: &[u8]) -> usize
    ensures { Wrote out.old 0 result out.new }
{
    let mut listing = words::zeros();
    match lister::list(packet, &mut listing) {
        Ok(n) => write_line(out, &mut listing[..n]),
        Err(e) => replies::refused(out, e),
    }
}

// What was listed, in one line.
fn write_line(out: &mut [u8], letters: &mut [u8]) -> usize
    ensures { Wrote out.old 0 result out.new }
{
    in_one_line(letters);
    let at = replies::word(out, b"list ");
    text::plain(out, at, letters)
}

// Puts `_` for each blank and `|` for each newline.
fn in_one_line(letters: &mut [u8]) {
    for letter in letters {
        *letter = mark(*letter);
    }
}

// What stands for a letter in one line without blanks.
fn mark(letter: u8) -> u8 {
    match letter {
        b' ' => b'_',
        b'\n' => b'|',
        _ => letter,
    }
}

// The figures in a row.
fn write_figures(out: &mut [u8], figures: af::Figures) -> usize
    ensures { Wrote out.old 0 result out.new }
{
    let mut at = replies::number(out, b"af seq=", figures.seq as usize);
    at = replies::labelled(out, at, b" cf=", usize::from(figures.cf));
    at = replies::labelled(out, at, b" rev=1.", figures.minor as usize);
    replies::labelled(out, at, b" len=", figures.len as usize)
}
