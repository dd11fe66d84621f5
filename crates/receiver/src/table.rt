// The table as a whole: its room, what it shows, and clearing it.
ghost use Rattle.std.specs.Prelude.{◌≡◌, false, length};
ghost use Rattle.base_rules.specs.Refusal.{fault_in};
ghost use Rattle.base_rules.specs.Written.{number_of};
ghost use Rattle.places_rules.specs.Places.{place_at};
ghost use Rattle.places_rules.specs.Faults.{bad_place, bad_table};
ghost use Rattle.receiver_rules.specs.Promise.{bad_room, room_fault};
ghost use Rattle.receiver_rules.specs.Calls.{shown_of, seen_values, query_call, queried_number, clear_call};

use crate::{Cleared, Seen, Shown};
use base::{MOST_L, Refusal};
use places::{ALL_PLACES, DELIVERED, FREE, OPEN, Place, Table};

// Whether the lent bytes are not those of four places, or the packet buffer is too small.
fn bad_room(lent: usize, room: usize) -> bool
    ensures { result ≡ bad_room lent room }
{
    lent != ALL_PLACES || room < MOST_L
}

// 14 or 1, the first that is due.
pub(crate) fn room_fault(t: Table, lent: usize, room: usize) -> Result<(), Refusal>
    ensures { fault_in result ≡ room_fault t lent room }
{
    if places::bad_table(t) {
        return Err(Refusal::State);
    }
    if bad_room(lent, room) {
        return Err(Refusal::Room);
    }
    Ok(())
}

// What a place shows.
fn seen(p: Place) -> Seen
    requires { bad_place p ≡ false }
    ensures { seen_values result ≡ shown_of p }
{
    match p.condition {
        FREE => Seen::Free,
        OPEN => Seen::Open(p.number),
        DELIVERED => Seen::Delivered(p.number),
        _ => Seen::Spoiled(p.number),
    }
}

fn seen_at(t: Table, i: usize) -> Seen
    requires { bad_table t ≡ false }
    ensures { seen_values result ≡ shown_of (place_at t i) }
{
    seen(places::place_at(t, i))
}

// Shows number and condition of all four places; 14 or 1 where the record or the lent bytes cannot be.
pub fn query(table: Table, lent: &[u8]) -> Result<Shown, Refusal>
    ensures { queried_number result ≡ query_call table (length lent.now) }
{
    room_fault(table, lent.len(), MOST_L)?;
    Ok(Shown {
        first: seen_at(table, 0),
        second: seen_at(table, 1),
        third: seen_at(table, 2),
        fourth: seen_at(table, 3),
    })
}

// Empties all four places; the lent bytes stay. 14 or 1 where the record or the lent bytes cannot be, and then the record stays too.
pub fn clear(table: Table, lent: &[u8]) -> Cleared
    ensures { (number_of result.answer, result.table) ≡ clear_call table (length lent.now) }
{
    let answer = room_fault(table, lent.len(), MOST_L);
    match answer {
        Ok(()) => Cleared {
            table: places::fresh(),
            answer,
        },
        Err(_) => Cleared { table, answer },
    }
}
