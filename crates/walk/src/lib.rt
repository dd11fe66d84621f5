// The nested walk over a TAG packet: whole, to check it, and step by step, to hand its items out.
#![tactic(auto)]

mod names;
mod steps;
mod whole;

ghost use Rattle.std.specs.Prelude.{◌≡◌};
ghost use Rattle.base_rules.specs.Refusal.{fault_in};
ghost use Rattle.walk_rules.specs.Step.{opens, walk_step, handed_number, walk_call};

use base::Refusal;
use item::Repeats;
use walk_rules::DEEPEST;
pub use walk_rules::{Handed, LEVELS, Visit, Walked, Walker};

// What a walker keeps of its opening: the number of the refusal, or 0.
fn kept(opened: Result<(), Refusal>) -> u8
    ensures { result ≡ fault_in opened }
{
    match opened {
        Ok(()) => 0,
        Err(e) => u8::from(e),
    }
}

// Opens a walk: the list of names, four bytes each, and the whole packet with all that its containers hold are checked first.
pub fn open_walk(packet: &[u8], names: &[u8], repeats: Repeats) -> Walker
    ensures { result ≡ opens repeats packet.now names.now }
{
    let refusal = kept(whole::check(packet, names, repeats));
    let n = packet.len();
    Walker {
        refusal,
        at: 0,
        depth: 0,
        ends: [n, 0, 0, 0, 0],
    }
}

// A step of a walk: refused with the walk's own number, or where opening would refuse the list of names. The refusal is a number, since a caller may make
// a walker with any, and it is shown as it is.
pub fn walk_step(packet: &[u8], names: &[u8], w: Walker) -> Walked
    ensures { (result ≡ walk_step packet.now names.now w)
        × (handed_number result.handed ≡ walk_call packet.now names.now w) }
{
    let refusal = w.refusal;
    if refusal != 0 {
        return Walked {
            handed: Err(refusal),
            next: w,
        };
    }
    if let Err(e) = names::fault(names) {
        return Walked {
            handed: Err(u8::from(e)),
            next: w,
        };
    }
    let ends = w.ends;
    steps::step_from(packet, names, w.at, w.depth, ends)
}
