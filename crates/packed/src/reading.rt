// Unpacking.
ghost use Rattle.std.specs.Prelude.{◌≡◌, true, cond, map, ◌+◌, ◌*◌, ◌≤◌, length, get_or};
ghost use Rattle.base_rules.specs.Bounds.{most_f};
ghost use Rattle.packed_rules.specs.Packed.{is_set, flag_bytes, place_from, place-bytes, table-bytes, table_from, bad_flags, bad_place_at, bad_record};
ghost use Rattle.packed_rules.specs.Packed.{unpack_fault, unpack_call};
ghost use Rattle.base_rules.specs.Refusal.{fault_in};
ghost use Rattle.base_rules.specs.Written.{number_of};
ghost use Rattle.places_rules.specs.Places.{four, free_place, fresh_table};

use crate::{FIGURES, ONE, RECORD, Unpacked};
use base::{MOST_F, Refusal};
use places::{FOUR, Place, Table};

// The flags that begin at i.
fn flags_from(s: &[u8], i: usize) -> [bool; MOST_F]
    requires { i + most_f ≤ length s.now }
    ensures { result ≡ map is_set (flag_bytes s.now i) }
{
    let mut kept = [false; MOST_F];
    for (j, b) in s[i..i + MOST_F].iter().enumerate() {
        kept[j] = *b != 0;
    }
    kept
}

// The record of the place whose bytes begin at i.
fn place_from(s: &[u8], i: usize) -> Place
    requires { i + place-bytes ≤ length s.now }
    ensures { result ≡ place_from s.now i }
{
    Place {
        condition: base::byte_at(s, i),
        number: base::read2(s, i + 1),
        count: base::read4(s, i + 3),
        fec: base::byte_at(s, i + 7) != 0,
        rsk: base::byte_at(s, i + 8),
        rsz: base::byte_at(s, i + 9),
        size: base::read2(s, i + 10),
        last: base::read2(s, i + 12),
        kept: flags_from(s, i + FIGURES),
    }
}

// Whether one of the flags that begin at i is none: their bits together tell it.
fn bad_flags(s: &[u8], i: usize) -> bool
    requires { i + most_f ≤ length s.now }
    ensures { result ≡ bad_flags (flag_bytes s.now i) }
{
    let mut bits = 0;
    for b in &s[i..i + MOST_F] {
        bits |= *b;
    }
    1 < bits
}

// Whether a flag of the place whose bytes begin at i is none.
fn bad_place_at(s: &[u8], i: usize) -> bool
    requires { i + place-bytes ≤ length s.now }
    ensures { result ≡ bad_place_at s.now i }
{
    1 < s[i + 7] || bad_flags(s, i + FIGURES)
}

// Whether a flag of one of the four places is none.
fn bad_record(s: &[u8]) -> bool
    requires { length s.now ≡ table-bytes }
    ensures { result ≡ bad_record s.now }
{
    bad_place_at(s, 0)
        || bad_place_at(s, ONE)
        || bad_place_at(s, 2 * ONE)
        || bad_place_at(s, 3 * ONE)
}

// 1 or 14, the first that is due.
fn fault_of(s: &[u8]) -> Result<(), Refusal>
    ensures { fault_in result ≡ unpack_fault s.now }
{
    if s.len() != RECORD {
        return Err(Refusal::Room);
    }
    if bad_record(s) {
        return Err(Refusal::State);
    }
    Ok(())
}

// The record of the place whose bytes begin at i, where they are taken, else a free one.
fn place_by(taken: bool, s: &[u8], i: usize) -> Place
    requires { taken ≡ true → i + place-bytes ≤ length s.now }
    ensures { result ≡ cond taken (place_from s.now i) free_place }
{
    if !taken {
        return places::place_at(places::fresh(), 0);
    }
    place_from(s, i)
}

// Which place is displaced next, the same way.
fn oldest_by(taken: bool, s: &[u8]) -> u8
    ensures { result ≡ cond taken (get_or s.now (four * place-bytes) 0) 0 }
{
    if !taken {
        return 0;
    }
    base::byte_at(s, FOUR * ONE)
}

// The record in the bytes, where they are taken, else a fresh one. One way for both: a choice between two records would copy each.
fn table_by(taken: bool, s: &[u8]) -> Table
    requires { taken ≡ true → length s.now ≡ table-bytes }
    ensures { result ≡ cond taken (table_from s.now) fresh_table }
{
    let a = place_by(taken, s, 0);
    let b = place_by(taken, s, ONE);
    let c = place_by(taken, s, 2 * ONE);
    let d = place_by(taken, s, 3 * ONE);
    Table {
        places: [a, b, c, d],
        oldest: oldest_by(taken, s),
    }
}

// Reads the record from its bytes; 1 ROOM where they are not as many, 14 STATE where a flag is none. Whether its fields are in their
// ranges the receiver's calls say.
pub fn unpack(s: &[u8]) -> Unpacked
    ensures { (number_of result.answer, result.table) ≡ unpack_call s.now }
{
    let answer = fault_of(s);
    Unpacked {
        table: table_by(answer.is_ok(), s),
        answer,
    }
}
