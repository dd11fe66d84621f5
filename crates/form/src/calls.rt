// Forming: what is refused, whether the fragments suffice, and the packet that agrees.
ghost use Rattle.std.specs.Prelude.{◌≡◌, false, ◌≤◌, eqb, length, Ok};
ghost use Rattle.base_rules.specs.Bounds.{most_f, most_l, place};
ghost use Rattle.base_rules.specs.Refusal.{fault_in};
ghost use Rattle.af_rules.specs.Calls.{af_fault};
ghost use Rattle.places_rules.specs.Faults.{bad_place};
ghost use Rattle.form_rules.specs.Agree.{enough_in, missing_in};
ghost use Rattle.form_rules.specs.Calls.{form_fault, PlaceFormed};
ghost use Rattle.form_rules.specs.inner.Proposals.{Ready, Proposal};

use crate::Formed;
use crate::coded::{decode, suffices};
use crate::plain::join;
use base::{MOST_L, PLACE, Refusal};
use places::Place;

// How many of the fragments are not kept.
fn missing_in(p: Place) -> usize
    requires { p.count ≤ most_f }
    ensures { result ≡ missing_in p }
{
    let count = p.count as usize;
    let kept = p.kept;
    let mut missing = 0;
    for k in &kept[..count] {
        if !*k {
            missing += 1;
        }
    }
    missing
}

// Whether the fragments kept suffice.
fn enough_in(p: Place) -> bool
    requires { bad_place p ≡ false }
    ensures { result ≡ enough_in p }
{
    if p.fec {
        return suffices(p);
    }
    missing_in(p) == 0
}

// 14 or 1, the first that is due.
fn form_fault(p: Place, held: usize, room: usize) -> Result<(), Refusal>
    ensures { fault_in result ≡ form_fault p held room }
{
    if places::bad_place(p) {
        return Err(Refusal::State);
    }
    if held < PLACE {
        return Err(Refusal::Room);
    }
    if room < MOST_L {
        return Err(Refusal::Room);
    }
    Ok(())
}

// The one packet that can agree with the kept bytes, at the front of a buffer.
fn propose(p: Place, held: &[u8], buffer: &mut [u8]) -> Option<usize>
    requires { Ready p held.now × (length buffer.old ≡ place) }
    ensures { Proposal p held.now buffer.new result × (length buffer.new ≡ place) }
{
    if p.fec {
        return decode(p, held, buffer);
    }
    Some(join(p, held, buffer))
}

// Whether the AF checks pass a packet.
fn accepted(packet: &[u8]) -> bool
    ensures { result ≡ eqb (af_fault packet.now) 0 }
{
    match af::check(packet) {
        Ok(_) => true,
        Err(_) => false,
    }
}

// Hands out the packet that is proposed, if the AF checks pass it.
fn hand_out(p: Place, held: &[u8], out: &mut [u8]) -> Formed
    requires { Ready p held.now × (most_l ≤ length out.old) }
    ensures { PlaceFormed p held.now out.old out.new (Ok result) }
{
    let mut buffer = [0u8; PLACE];
    match propose(p, held, &mut buffer) {
        None => Formed::Nothing,
        Some(n) => {
            if !accepted(&buffer[..n]) {
                return Formed::Nothing;
            }
            let _ = base::put(out, 0, &buffer[..n]);
            Formed::Packet {
                length: n,
                missing: missing_in(p),
            }
        }
    }
}

// Forms the packet of the place p from its bytes, which begin `held`, and writes it at the front of out; 14 or 1 where that cannot be.
pub fn form(p: Place, held: &[u8], out: &mut [u8]) -> Result<Formed, Refusal>
    ensures { PlaceFormed p held.now out.old out.new result }
{
    form_fault(p, held.len(), out.len())?;
    if !enough_in(p) {
        return Ok(Formed::Waits);
    }
    Ok(hand_out(p, held, out))
}
