// How many losses a cut stands, for C.
ghost use Rattle.std.specs.Prelude.{◌≡◌, ◌∷◌, map};
ghost use Rattle.base_rules.specs.Tests.{bit};
ghost use Rattle.endurance_rules.specs.Endure.{endurance_of};
ghost use Rattle.card_rules.specs.Told.{CardTold};
ghost use Rattle.card_rules.specs.Sending.{settings_of};
ghost use Rattle.card_rules.specs.Endurance.{with_flags, endure_for, endure_widths};

use crate::refused;
use crate::sending::settings_of;
use crate::telling::tell;
use base::MOST_F;
use endurance::Endurance;

// The numbers that are told: the losses stood, f, and one for each fragment.
const FIGURES: usize = 2 + MOST_F;

// The bytes that they take.
const TOLD_ENDURE: usize = 4 + MOST_F;

// The width of each: two bytes for the losses and for f. No constant as the other widths are, since they are too many to write out.
fn widths() -> [usize; FIGURES]
    ensures { result ≡ endure_widths }
{
    let mut each = [1; FIGURES];
    each[0] = 2;
    each[1] = 2;
    each
}

// The numbers themselves: of a fragment 1 where it is in the set.
fn figures(most: usize, f: usize, lost: [bool; MOST_F]) -> [usize; FIGURES]
    ensures { result ≡ most ∷ f ∷ map bit lost }
{
    let mut told = [0; FIGURES];
    told[0] = most;
    told[1] = f;
    for (i, b) in lost.iter().enumerate() {
        told[2 + i] = usize::from(*b);
    }
    told
}

// Tells the losses that a cut stands, f and the set, and gives the number of the answer. The set stands beside the answer and not in it, so
// `tell_answer` does not know it.
fn tell_endurance(e: Endurance, told: &mut [u8]) -> usize
    ensures { CardTold endure_widths (with_flags (endurance_of e)) told.old told.new result }
{
    match e.answer {
        Ok(stood) => tell(
            told,
            TOLD_ENDURE,
            &widths(),
            &figures(stood.most, stood.f, e.lost),
        ),
        Err(by) => refused(by),
    }
}

// Tells how many lost fragments the cut of a packet of l bytes stands, how many it has, and a set that is one too many, and gives 0; else
// the number of the refusal.
pub fn bailhammer_endure(
    fec: usize,
    m: usize,
    newer: usize,
    mtu: usize,
    addressed: usize,
    l: usize,
    told: &mut [u8],
) -> usize
    ensures { CardTold endure_widths (endure_for (settings_of fec m newer mtu addressed 0 0) l) told.old told.new result }
{
    let e = endurance::endure(settings_of(fec, m, newer, mtu, addressed, 0, 0), l);
    tell_endurance(e, told)
}
