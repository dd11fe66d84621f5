// Hands the receiver records of which one field is at the edge of its range or past it, in each of the four places, and prints a line
// for each: the place, the field, its value, and the numbers with which receive, query and clear refuse, 0 where they do not. The
// datagram is empty, so receive refuses a record in range with 2. Then three records in range that no calls leave, each with a
// fragment of the packet that they are of: the number of the answer, and how many bytes are handed out.
#![tactic(auto)]

use base::{MOST_L, Refusal};
use places::{ALL_PLACES, FOUR, OPEN, Place, Table};
use receiver::Received;
use std::io;

// A place in range: with FEC, ten fragments of a hundred bytes, chunks of a hundred with five zeros.
fn sound() -> Place {
    let mut p = places::place_at(places::fresh(), 0);
    p.condition = OPEN;
    p.number = 7;
    p.count = 10;
    p.fec = true;
    p.rsk = 100;
    p.rsz = 5;
    p.size = 100;
    p
}

// Why an answer is a refusal: a packet that is damaged counts as one.
fn fault_of(answer: Result<Received, Refusal>) -> Option<Refusal> {
    match answer {
        Ok(Received::Damaged(_)) => Some(Refusal::Damaged),
        Ok(_) => None,
        Err(e) => Some(e),
    }
}

// How many bytes an answer hands out: a count, so that 0 says that it hands out none.
fn handed_length(answer: Result<Received, Refusal>) -> usize {
    match answer {
        Ok(Received::Delivered { length, .. }) => length,
        _ => 0,
    }
}

// Why receive refuses a record.
fn by_receive(t: Table) -> Option<Refusal> {
    let mut lent = [0u8; ALL_PLACES];
    let mut out = [0u8; MOST_L];
    let reply = receiver::receive(None, t, &mut lent, b"", &mut out);
    fault_of(reply.answer)
}

fn by_query(t: Table) -> Option<Refusal> {
    let lent = [0u8; ALL_PLACES];
    receiver::query(t, &lent).err()
}

fn by_clear(t: Table) -> Option<Refusal> {
    let lent = [0u8; ALL_PLACES];
    let cleared = receiver::clear(t, &lent);
    cleared.answer.err()
}

// The number of a refusal, 0 where there is none.
fn put_fault(line: &mut [u8], at: usize, fault: Option<Refusal>) -> usize {
    text::decimal(line, at, fault.map_or(0, number))
}

fn number(e: Refusal) -> usize {
    usize::from(u8::from(e))
}

// The line of one record.
fn tell(rt: &impl Print, i: usize, field: &[u8], value: usize, t: Table) -> io::Result<()> {
    let mut line = [0u8; 80];
    let mut at = text::decimal(&mut line, 0, i);
    at = text::plain(&mut line, at, field);
    at = text::decimal(&mut line, at, value);
    at = text::plain(&mut line, at, b" ");
    at = put_fault(&mut line, at, by_receive(t));
    at = text::plain(&mut line, at, b" ");
    at = put_fault(&mut line, at, by_query(t));
    at = text::plain(&mut line, at, b" ");
    at = put_fault(&mut line, at, by_clear(t));
    at = text::plain(&mut line, at, b"\n");
    show(rt, &line, at)
}

// Writes the first n bytes of a line.
fn show(rt: &impl Print, line: &[u8], n: usize) -> io::Result<()> {
    if n <= line.len() {
        rt.write_all(&line[..n])?;
    }
    Ok(())
}

// The line of a fresh record with place i as p.
fn with(rt: &impl Print, i: usize, field: &[u8], value: usize, p: Place) -> io::Result<()> {
    tell(
        rt,
        i,
        field,
        value,
        places::with_place(places::fresh(), i, p),
    )
}

fn condition(rt: &impl Print, i: usize, value: u8) -> io::Result<()> {
    let mut p = sound();
    p.condition = value;
    with(rt, i, b" condition ", value as usize, p)
}

fn count(rt: &impl Print, i: usize, value: u32) -> io::Result<()> {
    let mut p = sound();
    p.count = value;
    p.size = 0;
    with(rt, i, b" count ", value as usize, p)
}

fn size(rt: &impl Print, i: usize, value: u16) -> io::Result<()> {
    let mut p = sound();
    p.count = 256;
    p.size = value;
    with(rt, i, b" size ", value as usize, p)
}

fn last(rt: &impl Print, i: usize, value: u16, size: u16) -> io::Result<()> {
    let mut p = sound();
    p.count = 1;
    p.fec = false;
    p.size = size;
    p.last = value;
    with(rt, i, b" last ", value as usize, p)
}

fn rsk(rt: &impl Print, i: usize, value: u8, fec: bool) -> io::Result<()> {
    let mut p = sound();
    p.fec = fec;
    p.rsk = value;
    p.rsz = 0;
    with(rt, i, b" rsk ", value as usize, p)
}

fn rsz(rt: &impl Print, i: usize, value: u8, fec: bool) -> io::Result<()> {
    let mut p = sound();
    p.fec = fec;
    p.rsz = value;
    with(rt, i, b" rsz ", value as usize, p)
}

// The lines of place i.
fn place(rt: &impl Print, i: usize) -> io::Result<()> {
    for value in [0, 3, 4, 255] {
        condition(rt, i, value)?;
    }
    for value in [0, 256, 257, 4294967295] {
        count(rt, i, value)?;
    }
    for value in [48, 49, 65535] {
        size(rt, i, value)?;
    }
    for (value, size) in [(12288, 0), (12289, 0), (100, 100), (101, 100)] {
        last(rt, i, value, size)?;
    }
    for (value, fec) in [(0, true), (1, true), (207, true), (208, true), (255, false)] {
        rsk(rt, i, value, fec)?;
    }
    for (value, fec) in [(99, true), (100, true), (255, false)] {
        rsz(rt, i, value, fec)?;
    }
    Ok(())
}

// The line of a record that says which place is displaced next.
fn oldest(rt: &impl Print, value: u8) -> io::Result<()> {
    let mut t = places::fresh();
    t.oldest = value;
    tell(rt, 4, b" oldest ", value as usize, t)
}

// Fragment 0 of two, without FEC, of number 7: its payload is a whole AF packet of 12 bytes.
const FIRST: [u8; 26] =
    *b"\x50\x46\x00\x07\x00\x00\x00\x00\x00\x02\x00\x0c\x3a\x70\x41\x46\x00\x00\x00\x00\x00\x01\x10\x54\x00\x00";

// Fragment 1 of two with the same payload.
const LAST: [u8; 26] =
    *b"\x50\x46\x00\x07\x00\x00\x01\x00\x00\x02\x00\x0c\x7f\xd0\x41\x46\x00\x00\x00\x00\x00\x01\x10\x54\x00\x00";

// The header of fragment 0 of two with FEC, k 12 and z 0, of number 7: 30 bytes are to follow.
const CODED: [u8; 16] = *b"\x50\x46\x00\x07\x00\x00\x00\x00\x00\x02\x80\x1e\x0c\x00\xc3\x6f";

// An open place of number 7 that waits for two fragments without FEC.
fn of_two() -> Place {
    let mut p = sound();
    p.count = 2;
    p.fec = false;
    p.rsk = 0;
    p.rsz = 0;
    p.size = 0;
    p
}

// The line of a record that no calls leave: what a fragment is answered there.
fn stray(rt: &impl Print, name: &[u8], p: Place, datagram: &[u8]) -> io::Result<()> {
    let mut lent = [0u8; ALL_PLACES];
    let mut out = [0u8; MOST_L];
    let t = places::with_place(places::fresh(), 0, p);
    let reply = receiver::receive(None, t, &mut lent, datagram, &mut out);
    let answer = reply.answer;
    let mut line = [0u8; 80];
    let mut at = text::plain(&mut line, 0, b"stray ");
    at = text::plain(&mut line, at, name);
    at = text::plain(&mut line, at, b" ");
    at = put_fault(&mut line, at, fault_of(answer));
    at = text::plain(&mut line, at, b" ");
    at = text::decimal(&mut line, at, handed_length(answer));
    at = text::plain(&mut line, at, b"\n");
    show(rt, &line, at)
}

// Fragment 0 is marked kept, and s is unknown: the last one makes all, and it alone is handed out.
fn without_size(rt: &impl Print) -> io::Result<()> {
    let mut p = of_two();
    p.kept[0] = true;
    stray(rt, b"size", p, &LAST)
}

// The last is marked kept, with no bytes: fragment 0 makes all, and it alone is handed out.
fn without_last(rt: &impl Print) -> io::Result<()> {
    let mut p = of_two();
    p.kept[1] = true;
    stray(rt, b"last", p, &FIRST)
}

// With FEC all are kept, and the place is open: each fragment is a repeat, and nothing is ever handed out.
fn overdue(rt: &impl Print) -> io::Result<()> {
    let mut p = sound();
    p.count = 2;
    p.rsk = 12;
    p.rsz = 0;
    p.size = 30;
    p.kept[0] = true;
    p.kept[1] = true;
    let mut datagram = [0u8; 46];
    let _ = base::put(&mut datagram, 0, &CODED);
    stray(rt, b"open", p, &datagram)
}

fn main(rt: HostRuntime) -> io::Result<()> {
    for i in 0..FOUR {
        place(&rt, i)?;
    }
    for value in [3, 4, 255] {
        oldest(&rt, value)?;
    }
    without_size(&rt)?;
    without_last(&rt)?;
    overdue(&rt)
}
