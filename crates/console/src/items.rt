// Questions on TAG items: one that is written, those of a packet, and the nested walk.
ghost use Rattle.std.specs.Prelude.{◌≤◌, length};
ghost use Rattle.text_rules.specs.Wrote.{Wrote};
ghost use Rattle.console.specs.inner.Answered.{Answered};

use crate::{finding, replies, words};

// The answer; none where the line is no question on items or malformed. Those by name are asked of `finding`.
pub(crate) fn answer(asked: (&[u8], usize), line: &[u8], out: &mut [u8]) -> Option<usize>
    ensures { Answered out.old result out.new }
{
    match asked {
        (b"item", 4) => answer_item(line, out),
        (b"items", 1 | 2) => answer_items(line, out, false),
        (b"itemsat", 1 | 2) => answer_items(line, out, true),
        (b"walk", 2 | 3) => answer_walk(line, out, false),
        (b"walkat", 2 | 3) => answer_walk(line, out, true),
        _ => finding::answer(asked, line, out),
    }
}

// `item NAME BITS ROOM VALUE` is answered `item BYTES`, or `refused N`.
fn answer_item(line: &[u8], out: &mut [u8]) -> Option<usize>
    ensures { Answered out.old result out.new }
{
    let name = words::name_at(line, 1)?;
    let bits = words::decimal_to(line, 2, 4294967295)?;
    let room = words::decimal_to(line, 3, words::BYTES)?;
    let mut buffer = [0u8; words::BYTES];
    let value = words::bytes_at(line, 4, &mut buffer)?;
    let mut item = words::zeros();
    make_and_write(out, name, item::Bits(bits as u32), value, &mut item[..room])
}

// `items PACKET [once|repeat]` is answered `items NAME:BITS:VALUE .. end PADDING`, or `refused N`; `itemsat`, with `placed`, has
// `START:UNUSED:` before each NAME.
fn answer_items(line: &[u8], out: &mut [u8], placed: bool) -> Option<usize>
    ensures { Answered out.old result out.new }
{
    let mut buffer = [0u8; words::BYTES];
    let packet = words::bytes_at(line, 1, &mut buffer)?;
    let repeats = words::repeats_at(line, 2)?;
    Some(write_items(out, packet, repeats, placed))
}

// `walk NAMES PACKET [once|repeat]` is answered `walk DEPTH:NAME:BITS .. end PADDING`, or `refused N`; `walkat` likewise.
fn answer_walk(line: &[u8], out: &mut [u8], placed: bool) -> Option<usize>
    ensures { Answered out.old result out.new }
{
    let mut buffer = [0u8; words::BYTES];
    let names = words::bytes_at(line, 1, &mut buffer)?;
    let mut other = [0u8; words::BYTES];
    let packet = words::bytes_at(line, 2, &mut other)?;
    let repeats = words::repeats_at(line, 3)?;
    Some(write_walk(out, packet, names, repeats, placed))
}

// The item of a value in the buffer that is lent for it.
fn make_and_write(
    out: &mut [u8],
    name: u32,
    bits: item::Bits,
    value: &[u8],
    room: &mut [u8],
) -> Option<usize>
    requires { length value.now ≤ 32768 }
    ensures { Answered out.old result out.new }
{
    let written = write::write(name, bits, value, room);
    replies::written(out, b"item ", written, room, item::HEAD + value.len())
}

// The items of a packet, or the refusal.
fn write_items(out: &mut [u8], packet: &[u8], repeats: item::Repeats, placed: bool) -> usize
    ensures { Wrote out.old 0 result out.new }
{
    match reader::first(packet, repeats) {
        Ok(_) => write_steps(out, packet, placed),
        Err(by) => replies::refused_by(out, by),
    }
}

// The items of a walk, or the refusal.
fn write_walk(
    out: &mut [u8],
    packet: &[u8],
    names: &[u8],
    repeats: item::Repeats,
    placed: bool,
) -> usize
    ensures { Wrote out.old 0 result out.new }
{
    let opened = walk::open_walk(packet, names, repeats);
    let by = opened.refusal;
    if by != 0 {
        return replies::refused_by(out, by);
    }
    write_visits(out, packet, names, opened, placed)
}

// How often a reader or a walk can step: each item has a head, and the end comes behind the last. A
// proved loop has to end, so those below take so many turns at most, and no packet takes more.
fn turns(packet: &[u8]) -> usize {
    packet.len() / item::HEAD + 1
}

// The items of a packet that is not refused, as a reader steps over it, and its padding.
fn write_steps(out: &mut [u8], packet: &[u8], placed: bool) -> usize
    ensures { Wrote out.old 0 result out.new }
{
    let mut to = replies::word(out, b"items");
    let mut at = 0;
    for _ in 0..turns(packet) {
        let step = reader::step_at(packet, at, 0);
        let Ok(item::Step::Item(i)) = step else {
            return write_end(out, to, step);
        };
        to = write_item(out, to, packet, i, placed);
        at = reader::place_after(packet, at, 0);
    }
    to
}

// The items of a walk, and the padding of the outer packet.
fn write_visits(
    out: &mut [u8],
    packet: &[u8],
    names: &[u8],
    opened: walk::Walker,
    placed: bool,
) -> usize
    ensures { Wrote out.old 0 result out.new }
{
    let mut to = replies::word(out, b"walk");
    let mut w = opened;
    for _ in 0..turns(packet) {
        let walked = walk::walk_step(packet, names, w);
        match walked.handed {
            Ok(walk::Handed::Item(visit)) => {
                to = write_visit(out, to, visit, placed);
            }
            Ok(walk::Handed::End(p)) => {
                return replies::labelled(out, to, b" end ", p.0);
            }
            Err(_) => {
                return to;
            }
        }
        w = walked.next;
    }
    to
}

// An item behind a blank, with its value.
fn write_item(out: &mut [u8], at: usize, packet: &[u8], i: item::Item, placed: bool) -> usize
    requires { at ≤ length out.old }
    ensures { Wrote out.old at result out.new }
{
    let to = write_head(out, at, b" ", i, placed);
    replies::value(out, to, b":", tag::value(packet, i))
}

// An item of a walk behind a blank and its depth.
fn write_visit(out: &mut [u8], at: usize, visit: walk::Visit, placed: bool) -> usize
    requires { at ≤ length out.old }
    ensures { Wrote out.old at result out.new }
{
    let to = replies::labelled(out, at, b" ", visit.depth);
    let i = visit.item;
    write_head(out, to, b":", i, placed)
}

// The name and the bits of an item behind a label, and with `placed` its place before them.
fn write_head(out: &mut [u8], at: usize, label: &[u8], i: item::Item, placed: bool) -> usize
    requires { at ≤ length out.old }
    ensures { Wrote out.old at result out.new }
{
    let name = base::bytes4(i.name);
    let mut to = write_label(out, at, label, i, placed);
    to = text::hex(out, to, &name);
    replies::labelled(out, to, b":", i.bits.0 as usize)
}

// A label, and with `placed` an item's place behind it.
fn write_label(out: &mut [u8], at: usize, label: &[u8], i: item::Item, placed: bool) -> usize
    requires { at ≤ length out.old }
    ensures { Wrote out.old at result out.new }
{
    let to = text::plain(out, at, label);
    if placed {
        return write_place(out, to, i, b":");
    }
    to
}

// Where an item began: its start and its unused bits, each with a gap behind it.
pub(crate) fn write_place(out: &mut [u8], at: usize, i: item::Item, gap: &[u8]) -> usize
    requires { at ≤ length out.old }
    ensures { Wrote out.old at result out.new }
{
    let mut to = text::decimal(out, at, i.start);
    to = replies::labelled(out, to, gap, i.unused.0 as usize);
    text::plain(out, to, gap)
}

// The padding behind the last item; a packet that was opened has no other end.
fn write_end(out: &mut [u8], at: usize, step: Result<item::Step, u8>) -> usize
    requires { at ≤ length out.old }
    ensures { Wrote out.old at result out.new }
{
    let Ok(item::Step::End(p)) = step else {
        return at;
    };
    replies::labelled(out, at, b" end ", p.0)
}
