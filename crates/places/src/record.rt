// The record, read and changed.
ghost use Rattle.std.specs.Prelude.{◌≡◌, true, cond, eqb, set};
ghost use Rattle.places_rules.specs.Places.{free, free_place, fresh_table, place_at, with_place, key_of, holds, held_at, open_at, displaced_at};
ghost use Rattle.places_rules.specs.Places.{turned as turned_of, opened_by, is_last, offset_of, kept_in, in_condition};

use crate::{FOUR, FREE, OPEN, Place, Table};
use base::{MOST_F, PLACE};
use header::Header;

// A place that holds nothing.
fn free_place() -> Place
    ensures { result ≡ free_place }
{
    Place {
        condition: FREE,
        number: 0,
        count: 0,
        fec: false,
        rsk: 0,
        rsz: 0,
        size: 0,
        last: 0,
        kept: [false; MOST_F],
    }
}

// A fresh table: all places free.
pub fn fresh() -> Table
    ensures { result ≡ fresh_table }
{
    let p = free_place();
    Table {
        places: [p, p, p, p],
        oldest: 0,
    }
}

// Place i; past the fourth there is a free one.
pub fn place_at(t: Table, i: usize) -> Place
    ensures { result ≡ place_at t i }
{
    if i < FOUR { t.places[i] } else { free_place() }
}

// The table with place i as p; past the fourth nothing changes. Never made part of its caller, on whose stack its copies would lie all along.
#[inline(never)]
pub fn with_place(t: Table, i: usize, p: Place) -> Table
    ensures { result ≡ with_place t i p }
{
    let mut places = t.places;
    if i < FOUR {
        places[i] = p;
        return Table {
            places,
            oldest: t.oldest,
        };
    }
    t
}

// Whether a place holds that number.
fn holds(p: &Place, number: u16) -> bool
    ensures { result ≡ holds p.now number }
{
    p.condition != FREE && p.number == number
}

// The place that holds a fragment's number, or 4.
pub fn held_at(t: Table, h: Header) -> usize
    ensures { result ≡ held_at t (key_of h) }
{
    t.places
        .iter()
        .position(|p| holds(p, h.number))
        .unwrap_or(FOUR)
}

// Whether place i is free.
fn is_free(t: Table, i: usize) -> bool
    ensures { result ≡ eqb (place_at t i).condition free }
{
    let p = place_at(t, i);
    p.condition == FREE
}

// The first free place, else the one opened longest ago.
pub fn open_at(t: Table) -> usize
    ensures { result ≡ open_at t }
{
    t.places
        .iter()
        .position(|p| p.condition == FREE)
        .unwrap_or(t.oldest as usize)
}

// The number that opening place i displaces: that of an open place.
pub fn displaced_at(t: Table, i: usize) -> Option<u16>
    ensures { result ≡ displaced_at t i }
{
    let p = place_at(t, i);
    if p.condition == OPEN {
        return Some(p.number);
    }
    None
}

// The table when place i is opened: where it was not free, the next one is displaced next.
pub fn turned(t: Table, i: usize) -> Table
    ensures { result ≡ turned_of t i }
{
    if is_free(t, i) {
        return t;
    }
    Table {
        oldest: ((t.oldest as usize + 1) % FOUR) as u8,
        ..t
    }
}

// A place that a fragment opens.
pub fn opened_by(h: Header) -> Place
    ensures { result ≡ opened_by h }
{
    Place {
        condition: OPEN,
        number: h.number,
        count: h.count,
        fec: h.fec,
        rsk: h.rsk,
        rsz: h.rsz,
        size: 0,
        last: 0,
        kept: [false; MOST_F],
    }
}

// Whether it is the last fragment of a cut without FEC.
pub fn is_last(h: Header) -> bool
    ensures { result ≡ is_last h }
{
    !h.fec && h.count as usize <= h.index as usize + 1
}

// Where a fragment's payload stands in its place.
pub fn offset_of(h: Header) -> usize
    ensures { result ≡ offset_of h }
{
    let plen = h.plen as usize;
    if is_last(h) {
        PLACE.saturating_sub(plen)
    } else {
        h.index as usize * plen
    }
}

// Which fragments are kept, with fragment i; past the bound nothing changes.
fn with_fragment(p: Place, i: usize) -> [bool; MOST_F]
    ensures { result ≡ set p.kept i true }
{
    let mut kept = p.kept;
    if i < MOST_F {
        kept[i] = true;
    }
    kept
}

// The place with one fragment more: the last one tells its own size alone.
pub fn kept_in(p: Place, h: Header) -> Place
    ensures { result ≡ kept_in p h }
{
    let kept = with_fragment(p, h.index as usize);
    if is_last(h) {
        Place {
            last: h.plen,
            kept,
            ..p
        }
    } else {
        Place {
            size: h.plen,
            kept,
            ..p
        }
    }
}

// The place in another condition.
pub fn in_condition(p: Place, condition: u8) -> Place
    ensures { result ≡ in_condition p condition }
{
    Place { condition, ..p }
}
