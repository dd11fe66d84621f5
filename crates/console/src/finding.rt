// Questions on an item by its name: the first in a packet or in a standing packet, and the occurrence of a number in a packet; each also with where
// the item began.
ghost use Rattle.text_rules.specs.Wrote.{Wrote};
ghost use Rattle.console.specs.inner.Answered.{Answered};

use crate::{items, readout, replies, words};
use base::Refusal;

// The answer; none where the line is no question by name or malformed. Those on "rbw_" are asked of `readout`.
pub(crate) fn answer(asked: (&[u8], usize), line: &[u8], out: &mut [u8]) -> Option<usize>
    ensures { Answered out.old result out.new }
{
    match asked {
        (b"find", 3 | 4) => answer_find(line, out, false),
        (b"findat", 3 | 4) => answer_find(line, out, true),
        (b"nth", 3 | 4) => answer_nth(line, out, false),
        (b"nthat", 3 | 4) => answer_nth(line, out, true),
        _ => readout::answer(asked, line, out),
    }
}

// `find NAME PACKET STANDING [once|repeat]` is answered `found BITS VALUE`, or `refused N`; `findat`, with `placed`, has
// `packet START UNUSED` or `standing START UNUSED` before BITS.
fn answer_find(line: &[u8], out: &mut [u8], placed: bool) -> Option<usize>
    ensures { Answered out.old result out.new }
{
    let name = words::name_at(line, 1)?;
    let mut buffer = [0u8; words::BYTES];
    let packet = words::bytes_at(line, 2, &mut buffer)?;
    let mut other = [0u8; words::BYTES];
    let standing = words::bytes_at(line, 3, &mut other)?;
    let repeats = words::repeats_at(line, 4)?;
    let sought = tag::search(packet, standing, repeats, name);
    let value = tag::find(packet, standing, repeats, name);
    Some(write_found(out, sought, value, placed))
}

// `nth NAME NUMBER PACKET [once|repeat]` is answered `found BITS VALUE`, or `refused N`; `nthat` likewise.
fn answer_nth(line: &[u8], out: &mut [u8], placed: bool) -> Option<usize>
    ensures { Answered out.old result out.new }
{
    let name = words::name_at(line, 1)?;
    let number = words::decimal_at(line, 2)?;
    let mut buffer = [0u8; words::BYTES];
    let packet = words::bytes_at(line, 3, &mut buffer)?;
    let repeats = words::repeats_at(line, 4)?;
    let sought = occurrence::search_nth(packet, repeats, name, number);
    let value = occurrence::find_nth(packet, repeats, name, number);
    Some(write_found(out, sought, value, placed))
}

// What a search answers and shows, or the refusal.
fn write_found(
    out: &mut [u8],
    sought: Result<tag::Hit, Refusal>,
    value: &[u8],
    placed: bool,
) -> usize
    ensures { Wrote out.old 0 result out.new }
{
    match sought {
        Ok(hit) => write_hit(out, hit, value, placed),
        Err(e) => replies::refused(out, e),
    }
}

// An item that was found, with its value.
fn write_hit(out: &mut [u8], hit: tag::Hit, value: &[u8], placed: bool) -> usize
    ensures { Wrote out.old 0 result out.new }
{
    let i = hit.item;
    let mut to = write_where(out, hit.standing, i, placed);
    to = text::decimal(out, to, i.bits.0 as usize);
    replies::value(out, to, b" ", value)
}

// The answer's name, and with `placed` which packet holds the item, and its place there.
fn write_where(out: &mut [u8], standing: bool, i: item::Item, placed: bool) -> usize
    ensures { Wrote out.old 0 result out.new }
{
    if placed {
        let to = write_which(out, standing);
        return items::write_place(out, to, i, b" ");
    }
    replies::word(out, b"found ")
}

// The answer's name, and which packet.
fn write_which(out: &mut [u8], standing: bool) -> usize
    ensures { Wrote out.old 0 result out.new }
{
    if standing {
        replies::word(out, b"found standing ")
    } else {
        replies::word(out, b"found packet ")
    }
}
