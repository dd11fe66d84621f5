// The lines of output.
use crate::drawing;
use base::Refusal;
use cut::Figures;
use places::Place;
use receiver::Received;
use std::io;

// Room for a line with 256 fragments.
const LINE: usize = 400;

// Writes the first n bytes of a line.
fn show(rt: &impl Print, line: &[u8], n: usize) -> io::Result<()> {
    if n <= line.len() {
        rt.write_all(&line[..n])?;
    }
    Ok(())
}

// The only line on an input that the sender refuses.
pub(crate) fn refused(rt: &impl Print, e: Refusal) -> io::Result<()> {
    let mut line = [0u8; 80];
    let mut at = text::plain(&mut line, 0, b"refused ");
    at = text::decimal(&mut line, at, number(e));
    at = text::plain(&mut line, at, b"\n");
    show(rt, &line, at)
}

// The first lines: a packet of l bytes, cut by p into fragments of `size` bytes each, and what is drawn behind each fragment.
pub(crate) fn cut(rt: &impl Print, l: usize, p: Figures, size: usize) -> io::Result<()> {
    let mut line = [0u8; 160];
    let mut at = text::plain(&mut line, 0, b"packet ");
    at = text::decimal(&mut line, at, l);
    at = text::plain(&mut line, at, b" bytes: ");
    at = text::decimal(&mut line, at, p.f);
    at = text::plain(&mut line, at, b" fragments of ");
    at = text::decimal(&mut line, at, size);
    at = text::plain(&mut line, at, b" bytes, any ");
    at = text::decimal(&mut line, at, p.assured);
    at = text::plain(&mut line, at, b" may be lost\n");
    show(rt, &line, at)?;
    legend(rt, p.c, p.n)
}

// What is drawn, in words.
fn legend(rt: &impl Print, c: usize, n: usize) -> io::Result<()> {
    let mut line = [0u8; 160];
    let mut at = text::decimal(&mut line, 0, c);
    at = text::plain(&mut line, at, b" chunks of ");
    at = text::decimal(&mut line, at, n);
    at = text::plain(
        &mut line,
        at,
        b" bytes; o: held; #: 8 bytes the worst chunk misses; none behind | (48) is enough\n",
    );
    show(rt, &line, at)
}

// Fragment i never comes; the far end's place stays p.
pub(crate) fn lost(rt: &impl Print, i: usize, p: Place) -> io::Result<()> {
    let mut line = [0u8; LINE];
    let mut at = put_fragment(&mut line, i);
    at = text::plain(&mut line, at, b" lost");
    at = drawing::put_place(&mut line, at, p);
    at = text::plain(&mut line, at, b"\n");
    show(rt, &line, at)
}

// Fragment i comes, and is answered; the far end's place is then p.
pub(crate) fn arrived(
    rt: &impl Print,
    i: usize,
    answer: Result<Received, Refusal>,
    p: Place,
) -> io::Result<()> {
    let mut line = [0u8; LINE];
    let mut at = put_fragment(&mut line, i);
    at = put_answer(&mut line, at, answer);
    at = drawing::put_place(&mut line, at, p);
    at = put_outcome(&mut line, at, answer);
    at = text::plain(&mut line, at, b"\n");
    show(rt, &line, at)
}

fn put_fragment(line: &mut [u8], i: usize) -> usize {
    let to = text::plain(line, 0, b"fragment ");
    text::decimal(line, to, i)
}

// An answer in words. One packet is on the line, so no number is displaced.
fn put_answer(line: &mut [u8], at: usize, answer: Result<Received, Refusal>) -> usize {
    match answer {
        Ok(Received::Kept(_)) => text::plain(line, at, b" kept"),
        Ok(Received::Delivered { .. }) => text::plain(line, at, b" delivered"),
        Ok(Received::Damaged(_)) => put_refused(line, at, Refusal::Damaged),
        Err(e) => put_refused(line, at, e),
    }
}

// What a delivery carries.
fn put_outcome(line: &mut [u8], at: usize, answer: Result<Received, Refusal>) -> usize {
    match answer {
        Ok(
            Received::Delivered {
                length,
                missing,
                ..
            },
        ) => put_delivered(line, at, length, missing),
        _ => at,
    }
}

fn put_delivered(line: &mut [u8], at: usize, length: usize, missing: usize) -> usize {
    let mut to = text::plain(line, at, b" ");
    to = text::decimal(line, to, length);
    to = text::plain(line, to, b" bytes, ");
    to = text::decimal(line, to, missing);
    text::plain(line, to, b" fragments not held")
}

fn put_refused(line: &mut [u8], at: usize, e: Refusal) -> usize {
    let to = text::plain(line, at, b" refused ");
    text::decimal(line, to, number(e))
}

fn number(e: Refusal) -> usize {
    usize::from(u8::from(e))
}

// The last line: whether the packet handed out, the first bytes of out, is the one that went in.
pub(crate) fn end(
    rt: &impl Print,
    packet: &[u8],
    out: &[u8],
    length: Option<usize>,
) -> io::Result<()> {
    let Some(n) = length else {
        return rt.write_all(b"the packet was not handed out\n");
    };
    if is_front(packet, out, n) {
        rt.write_all(b"the packet is the one that went in\n")
    } else {
        rt.write_all(b"the packet is not the one that went in\n")
    }
}

// Whether the first so many bytes of out are the packet.
fn is_front(packet: &[u8], out: &[u8], length: usize) -> bool {
    if length <= out.len() {
        return packet == &out[..length];
    }
    false
}
