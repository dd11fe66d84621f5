// Questions on the receiver. Its record and the bytes that it is lent stand in the seat, which the caller
// holds from one line to the next: the packed record, and then the lent bytes.
ghost use Rattle.std.specs.Prelude.{◌≤◌, length};
ghost use Rattle.console.specs.inner.Sized.{lent_most};
ghost use Rattle.text_rules.specs.Wrote.{Wrote};
ghost use Rattle.console.specs.inner.Answered.{Answered};

use crate::{SEAT, replies, words};
use base::Refusal;
use packed::RECORD;
use receiver::{Received, Seen, Shown, Table};

// The most bytes that a question lends as the table's: more than the table has, so that a length too large
// can be asked.
pub(crate) const LENT: usize = 65536;

// The answer; none where the line is no question on the receiver or malformed, and where the seat is none.
pub(crate) fn answer(
    asked: (&[u8], usize),
    line: &[u8],
    seat: &mut [u8],
    out: &mut [u8],
) -> Option<usize>
    ensures { Answered out.old result out.new }
{
    let seat = seat.as_mut_array::<SEAT>()?;
    match asked {
        (b"recv", 4) => answer_recv(line, seat, out),
        (b"query", 1) => answer_query(line, seat, out),
        (b"clear", 1) => answer_clear(line, seat, out),
        (b"fresh", 0) => {
            hold(seat, receiver::fresh());
            Some(replies::word(out, b"ok"))
        }
        _ => None,
    }
}

// The record that the seat holds; a fresh one where its bytes are no record.
fn record(seat: &[u8; SEAT]) -> Table {
    let unpacked = packed::unpack(&seat[..RECORD]);
    unpacked.table
}

// The seat with another record.
fn hold(seat: &mut [u8; SEAT], table: Table) {
    let _ = packed::pack(table, &mut seat[..RECORD]);
}

// `recv PAIR TABLELEN OUTLEN DATAGRAM` is answered `kept DISPLACED`, `refused 13 DISPLACED`,
// `delivered LENGTH MISSING DISPLACED PACKET`, or `refused N`.
fn answer_recv(line: &[u8], seat: &mut [u8; SEAT], out: &mut [u8]) -> Option<usize>
    ensures { Answered out.old result out.new }
{
    let own = words::address_at(line, 1)?;
    let lent = words::decimal_to(line, 2, LENT)?;
    let room = words::decimal_to(line, 3, words::BYTES)?;
    let mut buffer = [0u8; words::BYTES];
    let datagram = words::bytes_at(line, 4, &mut buffer)?;
    let mut packet = words::zeros();
    take(out, own, seat, lent, datagram, &mut packet[..room])
}

// Receives a datagram with so many of the seat's bytes lent.
fn take(
    out: &mut [u8],
    own: Option<cut::Address>,
    seat: &mut [u8; SEAT],
    lent: usize,
    datagram: &[u8],
    packet: &mut [u8],
) -> Option<usize>
    requires { lent ≤ lent_most }
    ensures { Answered out.old result out.new }
{
    let table = record(seat);
    let end = RECORD + lent;
    let reply = receiver::receive(own, table, &mut seat[RECORD..end], datagram, packet);
    hold(seat, reply.table);
    write_received(out, reply.answer, packet)
}

// What a datagram was answered; the packet stands at the front of its buffer.
fn write_received(out: &mut [u8], answer: Result<Received, Refusal>, packet: &[u8]) -> Option<usize>
    ensures { Answered out.old result out.new }
{
    match answer {
        Ok(Received::Kept(d)) => Some(write_displaced(out, 0, b"kept ", d)),
        Ok(
            Received::Delivered {
                length,
                missing,
                displaced,
            },
        ) => write_delivered(out, length, missing, displaced, packet),
        Ok(Received::Damaged(d)) => Some(write_displaced(out, 0, b"refused 13 ", d)),
        Err(e) => Some(replies::refused(out, e)),
    }
}

// A packet that was handed out. No call hands out more than it was lent, and where one did there would be
// no answer.
fn write_delivered(
    out: &mut [u8],
    length: usize,
    missing: usize,
    d: Option<u16>,
    packet: &[u8],
) -> Option<usize>
    ensures { Answered out.old result out.new }
{
    let handed = packet.get(..length)?;
    let mut at = replies::number(out, b"delivered ", length);
    at = replies::labelled(out, at, b" ", missing);
    at = write_displaced(out, at, b" ", d);
    Some(replies::value(out, at, b" ", handed))
}

// A displaced number behind a label, or `none`.
fn write_displaced(out: &mut [u8], at: usize, label: &[u8], d: Option<u16>) -> usize
    requires { at ≤ length out.old }
    ensures { Wrote out.old at result out.new }
{
    let to = text::plain(out, at, label);
    match d {
        None => text::plain(out, to, b"none"),
        Some(n) => text::decimal(out, to, n as usize),
    }
}

// `query TABLELEN` is answered `places P0 P1 P2 P3`, or `refused N`.
fn answer_query(line: &[u8], seat: &[u8; SEAT], out: &mut [u8]) -> Option<usize>
    ensures { Answered out.old result out.new }
{
    let lent = words::decimal_to(line, 1, LENT)?;
    let end = RECORD + lent;
    let queried = receiver::query(record(seat), &seat[RECORD..end]);
    Some(write_queried(out, queried))
}

// The places, or the refusal.
fn write_queried(out: &mut [u8], queried: Result<Shown, Refusal>) -> usize
    ensures { Wrote out.old 0 result out.new }
{
    match queried {
        Ok(shown) => write_places(out, shown),
        Err(e) => replies::refused(out, e),
    }
}

// What the four places show.
fn write_places(out: &mut [u8], shown: Shown) -> usize
    ensures { Wrote out.old 0 result out.new }
{
    let mut at = replies::word(out, b"places");
    for seen in [shown.first, shown.second, shown.third, shown.fourth] {
        at = write_seen(out, at, seen);
    }
    at
}

// What one place shows, behind a blank.
fn write_seen(out: &mut [u8], at: usize, s: Seen) -> usize
    requires { at ≤ length out.old }
    ensures { Wrote out.old at result out.new }
{
    match s {
        Seen::Free => text::plain(out, at, b" free"),
        Seen::Open(n) => replies::labelled(out, at, b" open:", n as usize),
        Seen::Delivered(n) => replies::labelled(out, at, b" delivered:", n as usize),
        Seen::Spoiled(n) => replies::labelled(out, at, b" spoiled:", n as usize),
    }
}

// `clear TABLELEN` is answered `ok`, or `refused N`.
fn answer_clear(line: &[u8], seat: &mut [u8; SEAT], out: &mut [u8]) -> Option<usize>
    ensures { Answered out.old result out.new }
{
    let lent = words::decimal_to(line, 1, LENT)?;
    let end = RECORD + lent;
    let cleared = receiver::clear(record(seat), &seat[RECORD..end]);
    hold(seat, cleared.table);
    Some(write_cleared(out, cleared.answer))
}

// That the table was cleared, or the refusal.
fn write_cleared(out: &mut [u8], answer: Result<(), Refusal>) -> usize
    ensures { Wrote out.old 0 result out.new }
{
    match answer {
        Ok(()) => replies::word(out, b"ok"),
        Err(e) => replies::refused(out, e),
    }
}
