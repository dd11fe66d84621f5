// A fragment's way: checked, kept in its place, and formed into a packet where the place's fragments suffice. What it changes of the record
// is one place and which is displaced next: the parts hand on these, and the record is made anew once, since each copy of it costs.
ghost use Rattle.std.specs.Prelude.{◌≡◌, false, ◌<◌, length, Err};
ghost use Rattle.places_rules.specs.declared.Table.{Table};
ghost use Rattle.places_rules.specs.Places.{four, with_place, kept_in};
ghost use Rattle.places_rules.specs.Faults.{bad_place, bad_table};
ghost use Rattle.receiver_rules.specs.Promise.{reception, keep_at, Settled, SettledAfter, Step};
ghost use Rattle.receiver_rules.specs.inner.Arrivals.{Lent, Heard, changed, Arrives};

use crate::table::room_fault;
use crate::{Change, Received, Reply};
use base::{PLACE, Refusal};
use cut::Address;
use form::Formed;
use header::Header;
use places::{DELIVERED, FOUR, Place, SPOILED, Table};

// A refusal: the record stays as it is. Never made part of its callers, on whose stack its copy of a place would lie all along.
#[inline(never)]
fn refusal(t: Table, e: Refusal) -> Change
    ensures { (changed t result ≡ t) × (result.answer ≡ Err e) }
{
    Change {
        at: FOUR,
        place: places::place_at(t, FOUR),
        oldest: t.oldest,
        answer: Err(e),
    }
}

// After a fragment was kept in place i, which is p now: its packet is handed out if its fragments suffice and one agrees with them.
fn settle(i: usize, p: Place, oldest: u8, d: Option<u16>, lent: &[u8], out: &mut [u8]) -> Change
    requires { (i < four) × Lent lent.now out.old × (bad_place p ≡ false) }
    ensures { (t : Table) → length t.places ≡ four → t.oldest
        ≡ oldest → Settled (with_place t i p) i d lent.now out.old
        (reception result.answer (changed t result) lent.now out.new) }
{
    match form::form(p, &lent[i * PLACE..], out) {
        Ok(Formed::Waits) => Change {
            at: i,
            place: p,
            oldest,
            answer: Ok(Received::Kept(d)),
        },
        Ok(Formed::Packet { length, missing }) => Change {
            at: i,
            place: places::in_condition(p, DELIVERED),
            oldest,
            answer: Ok(Received::Delivered {
                length,
                missing,
                displaced: d,
            }),
        },
        Ok(Formed::Nothing) => Change {
            at: i,
            place: places::in_condition(p, SPOILED),
            oldest,
            answer: Ok(Received::Damaged(d)),
        },
        Err(e) => Change {
            at: i,
            place: p,
            oldest,
            answer: Err(e),
        },
    }
}

// Keeps a fragment in place i, which was p.
fn keep(
    i: usize,
    p: Place,
    oldest: u8,
    d: Option<u16>,
    h: Header,
    lent: &mut [u8],
    payload: &[u8],
    out: &mut [u8],
) -> Change
    requires { (i < four) × Lent lent.old out.old × Heard h payload.now × (bad_place (kept_in p h) ≡ false) }
    ensures { (t : Table) → length t.places ≡ four → t.oldest
        ≡ oldest → SettledAfter (keep_at t i p d h lent.old payload.now) out.old
        (reception result.answer (changed t result) lent.new out.new) }
{
    let _ = base::put(lent, i * PLACE + places::offset_of(h), payload);
    settle(i, places::kept_in(p, h), oldest, d, &lent[..], out)
}

// A fragment whose header passed: 9 to 12 by the place that holds its number, or it is kept there, or it opens a place.
fn accept(t: Table, h: Header, lent: &mut [u8], payload: &[u8], out: &mut [u8]) -> Change
    requires { (bad_table t ≡ false) × Lent lent.old out.old × Heard h payload.now }
    ensures { Arrives t h lent.old payload.now out.old
        (reception result.answer (changed t result) lent.new out.new) }
{
    let i = places::held_at(t, h);
    if i < FOUR {
        let p = places::place_at(t, i);
        if let Err(e) = places::place_fault(p, h) {
            return refusal(t, e);
        }
        return keep(i, p, t.oldest, None, h, lent, payload, out);
    }
    let j = places::open_at(t);
    let d = places::displaced_at(t, j);
    let u = places::turned(t, j);
    keep(j, places::opened_by(h), u.oldest, d, h, lent, payload, out)
}

// What a datagram changes.
fn change_by(
    own: Option<Address>,
    table: Table,
    lent: &mut [u8],
    datagram: &[u8],
    out: &mut [u8],
) -> Change
    ensures { Step own (record { table = table; bytes = lent.old }) datagram.now out.old
        (reception result.answer (changed table result) lent.new out.new) }
{
    if let Err(e) = room_fault(table, lent.len(), out.len()) {
        return refusal(table, e);
    }
    match header::parse(own, datagram) {
        Err(e) => refusal(table, e),
        Ok(h) => {
            let at = datagram.len() - h.plen as usize;
            accept(table, h, lent, &datagram[at..], out)
        }
    }
}

// Receives a datagram at the address `own`, with the record and the bytes of the four places as the last call left them, and a buffer for
// the packet that it may complete.
pub fn receive(
    own: Option<Address>,
    table: Table,
    lent: &mut [u8],
    datagram: &[u8],
    out: &mut [u8],
) -> Reply
    ensures { Step own (record { table = table; bytes = lent.old }) datagram.now out.old
        (reception result.answer result.table lent.new out.new) }
{
    let c = change_by(own, table, lent, datagram, out);
    let places = table.places;
    let p = c.place;
    let a = c.answer;
    let turned = Table {
        places,
        oldest: c.oldest,
    };
    Reply {
        table: places::with_place(turned, c.at, p),
        answer: a,
    }
}
