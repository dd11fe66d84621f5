// The main job at a glance: one AF packet of standard input goes over a bad line. It is cut at the setting for two losses, the line treats
// the fragments by a fixed rule, the receiver is handed what is left, and what becomes of each fragment is a line of output. The rule:
// neighbours are exchanged (1 0 3 2 ..); every third fragment (2, 5, 8, ..) comes twice; every fifth (4, 9, ..) is lost, until as many
// are lost as the plan assures. It is the relief receiver test of document 02, Item 5, which relies on surviving two losses.
#![tactic(auto)]

mod drawing;
mod telling;

ghost use Rattle.std.specs.Prelude.{◌≤◌, length, IfOk};

use base::{MOST_L, MOST_MTU, Refusal};
use cut::Figures;
use places::{ALL_PLACES, Place, Table};
use receiver::Received;
use std::io;
use std::io::Read;

// Room for every packet and a byte more: a longer input is refused with 21 or 22, as it would be whole.
const INPUT: usize = MOST_L + 1;

// The number that the packet has on the line.
const NUMBER: u16 = 1;

// The far end: the receiver's record, and the length of the packet that was handed out, None before one was.
#[derive(Clone, Copy)]
struct End {
    table: Table,
    length: Option<usize>,
}

// The length of the packet that was handed out, which was `before` until this answer.
fn length_after(before: Option<usize>, answer: Result<Received, Refusal>) -> Option<usize> {
    match answer {
        Ok(Received::Delivered { length, .. }) => Some(length),
        _ => before,
    }
}

// The packet's place: a fresh table opens its first place first, and no other packet is on the line.
fn place_of(table: Table) -> Place {
    places::place_at(table, 0)
}

// Fragment i comes to the far end.
fn arrive(
    rt: &impl Print,
    i: usize,
    end: End,
    datagram: &[u8],
    lent: &mut [u8],
    out: &mut [u8],
) -> io::Result<End> {
    let reply = receiver::receive(None, end.table, lent, datagram, out);
    let table = reply.table;
    let answer = reply.answer;
    telling::arrived(rt, i, answer, place_of(table))?;
    Ok(End {
        table,
        length: length_after(end.length, answer),
    })
}

// Fragment i is sent, and comes. The sender refuses none here: it took the packet, and i is below f.
fn send(
    rt: &impl Print,
    packet: &[u8],
    i: usize,
    end: End,
    lent: &mut [u8],
    out: &mut [u8],
) -> io::Result<End> {
    let mut datagram = [0u8; MOST_MTU];
    let Ok(n) = sender::fragment(cut::two_losses(), NUMBER, packet, i, &mut datagram) else {
        return Ok(end);
    };
    if n <= MOST_MTU {
        return arrive(rt, i, end, &datagram[..n], lent, out);
    }
    Ok(end)
}

// Whether fragment i never comes.
fn is_lost(i: usize, assured: usize) -> bool {
    if i % 5 == 4 { i / 5 < assured } else { false }
}

// Whether fragment i comes a second time.
fn is_repeated(i: usize) -> bool {
    i % 3 == 2
}

// What the line does with fragment i.
fn carry(
    rt: &impl Print,
    packet: &[u8],
    p: Figures,
    i: usize,
    end: End,
    lent: &mut [u8],
    out: &mut [u8],
) -> io::Result<End> {
    if is_lost(i, p.assured) {
        telling::lost(rt, i, place_of(end.table))?;
        return Ok(end);
    }
    let once = send(rt, packet, i, end, lent, out)?;
    if is_repeated(i) {
        return send(rt, packet, i, once, lent, out);
    }
    Ok(once)
}

// The fragment that has turn i: the other one of the pair, where there is one.
fn at_turn(i: usize, f: usize) -> usize {
    let other = i ^ 1;
    if other < f { other } else { i }
}

// All fragments over the line; the length of the packet that was handed out, None if none was.
fn carry_all(
    rt: &impl Print,
    packet: &[u8],
    p: Figures,
    lent: &mut [u8],
    out: &mut [u8],
) -> io::Result<Option<usize>> {
    let mut end = End {
        table: receiver::fresh(),
        length: None,
    };
    for i in 0..p.f {
        end = carry(rt, packet, p, at_turn(i, p.f), end, lent, out)?;
    }
    Ok(end.length)
}

// A packet that is cut by p, in fragments of `size` bytes.
fn relay(rt: &impl Print, packet: &[u8], p: Figures, size: usize) -> io::Result<()> {
    telling::cut(rt, packet.len(), p, size)?;
    let mut lent = [0u8; ALL_PLACES];
    let mut out = [0u8; MOST_L];
    let length = carry_all(rt, packet, p, &mut lent, &mut out)?;
    telling::end(rt, packet, &out, length)
}

// A packet that the sender takes.
fn plan(rt: &impl Print, packet: &[u8], size: usize) -> io::Result<()> {
    match cut::plan(cut::two_losses(), packet.len()) {
        Ok(p) => relay(rt, packet, p, size),
        Err(e) => telling::refused(rt, e),
    }
}

// Asks the sender for the first fragment: it refuses the packet, or tells how long each fragment is.
fn begin(rt: &impl Print, packet: &[u8]) -> io::Result<()> {
    let mut datagram = [0u8; MOST_MTU];
    match sender::fragment(cut::two_losses(), NUMBER, packet, 0, &mut datagram) {
        Ok(size) => plan(rt, packet, size),
        Err(e) => telling::refused(rt, e),
    }
}

// Reads until the buffer is full or the input ends, and answers how many bytes were read. The program `listing` has one of its own, which
// asks for a buffer that holds all on which a listing depends.
fn read_input<R: Read>(reader: &mut R, input: &mut [u8]) -> io::Result<usize>
    ensures { IfOk result (λ n. n ≤ length input.new) }
{
    let mut n = 0;
    // A `while` and no range: each turn goes on by as many bytes as its read brought.
    while n < input.len() {
        let more = reader.read(&mut input[n..])?;
        if more == 0 {
            return Ok(n);
        }
        n += more;
    }
    Ok(n)
}

fn main(rt: HostRuntime) -> io::Result<()> {
    let mut input = [0u8; INPUT];
    let n = read_input(&mut rt.stdin(), &mut input)?;
    begin(&rt, &input[..n])
}
