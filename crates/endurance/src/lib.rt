// How many lost fragments a cut stands, exactly, and a set of one more that it does not stand (document 02, Item 12).
#![tactic(auto)]

ghost use Rattle.std.specs.Prelude.{◌≡◌, ◌+◌, ◌≤◌, ◌<◌, Ok};
ghost use Rattle.base_rules.specs.Bounds.{most_f, most_k, parity};
ghost use Rattle.cut_rules.specs.Plan.{plan_of, number_of};
ghost use Rattle.endurance_rules.specs.Endure.{stands, stands_of, flagged, endure_call, endurance_of};

use base::{MOST_F, PARITY};
use cut::{Figures, Settings};
pub use endurance_rules::{Endurance, Losses};

// The most fragments whose loss, whichever they are, takes at most 48 of the n bytes of a chunk that is cut into f.
fn most_lost(n: usize, f: usize) -> usize
    requires { (0 < f) × (parity < n) × (n ≤ most_k + parity) }
    ensures { result ≡ stands n f }
{
    let each = n / f;
    let thick = n % f;
    // So many of the fragments that take one byte more than the others; where there are no more than that, all of them and perhaps some
    // others.
    let few = PARITY / (each + 1);
    if few < thick {
        return few;
    }
    (PARITY - thick) / each
}

// The same of a plan, and 0 without FEC.
fn stood(g: Settings, l: usize, p: Figures) -> usize
    requires { number_of (Ok p) ≡ plan_of g l }
    ensures { (result ≡ stands_of g l) × (result < most_f) }
{
    if g.fec { most_lost(p.n, p.f) } else { 0 }
}

// The first v fragments, as flags.
fn first_lost(v: usize) -> [bool; MOST_F]
    requires { v ≤ most_f }
    ensures { result ≡ flagged v }
{
    let mut lost = [false; MOST_F];
    lost[..v].fill(true);
    lost
}

// The most losses that a cut of l bytes stands, whichever fragments they are, and how many it has; beside them the set of the first
// fragments that is one too many. Or 40, 20, 22, 41, as a plan is refused, and no set.
pub fn endure(g: Settings, l: usize) -> Endurance
    ensures { endurance_of result ≡ endure_call g l }
{
    match cut::plan(g, l) {
        Ok(p) => {
            let most = stood(g, l, p);
            Endurance {
                answer: Ok(Losses { most, f: p.f }),
                lost: first_lost(most + 1),
            }
        }
        Err(e) => Endurance {
            answer: Err(e),
            lost: first_lost(0),
        },
    }
}
