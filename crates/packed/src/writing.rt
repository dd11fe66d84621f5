// Packing.
ghost use Rattle.std.specs.Prelude.{◌≡◌, map, ◌+◌, ◌≤◌, length};
ghost use Rattle.base_rules.specs.Answer.{outcome};
ghost use Rattle.base_rules.specs.Bytes.{splice};
ghost use Rattle.base_rules.specs.Tests.{bit};
ghost use Rattle.base_rules.specs.Written.{number_of};
ghost use Rattle.places_rules.specs.Places.{place_at};
ghost use Rattle.packed_rules.specs.Packed.{figures_of, packed_place, place-bytes, pack_call};

use crate::{FIGURES, ONE, RECORD};
use base::{MOST_F, Refusal};
use places::{FOUR, Place, Table};

// The flags as bytes.
fn flags(kept: [bool; MOST_F]) -> [u8; MOST_F]
    ensures { result ≡ map bit kept }
{
    let mut bytes = [0u8; MOST_F];
    for (i, k) in kept.iter().enumerate() {
        bytes[i] = u8::from(*k);
    }
    bytes
}

// The figures of a place as bytes.
fn figures(p: Place) -> [u8; FIGURES]
    ensures { result ≡ figures_of p }
{
    let n = base::bytes2(p.number);
    let f = base::bytes4(p.count);
    let s = base::bytes2(p.size);
    let l = base::bytes2(p.last);
    let fec = u8::from(p.fec);
    [
        p.condition,
        n[0],
        n[1],
        f[0],
        f[1],
        f[2],
        f[3],
        fec,
        p.rsk,
        p.rsz,
        s[0],
        s[1],
        l[0],
        l[1],
    ]
}

// Place i of the record from `at` on.
fn put_place(out: &mut [u8], at: usize, t: Table, i: usize)
    requires { at + place-bytes ≤ length out.old }
    ensures { (length (packed_place (place_at t i)) ≡ place-bytes)
        × (out.new ≡ splice out.old at (packed_place (place_at t i))) }
{
    let p = places::place_at(t, i);
    let _ = base::put(out, at, &figures(p));
    let kept = p.kept;
    let _ = base::put(out, at + FIGURES, &flags(kept));
}

// Writes the record at the front of out; 1 ROOM where it does not fit, and then out stays as it is.
pub fn pack(t: Table, out: &mut [u8]) -> Result<(), Refusal>
    ensures { outcome (number_of result) out.new ≡ pack_call t out.old }
{
    if out.len() < RECORD {
        return Err(Refusal::Room);
    }
    put_place(out, 0, t, 0);
    put_place(out, ONE, t, 1);
    put_place(out, 2 * ONE, t, 2);
    put_place(out, 3 * ONE, t, 3);
    base::put(out, FOUR * ONE, &[t.oldest])
}
