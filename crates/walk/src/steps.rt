// One step of a walk.
ghost use Rattle.std.specs.Prelude.{◌≡◌, ◌^◌, ◌≤◌, ◌<◌, min};
ghost use Rattle.item_rules.specs.Run.{next_of};
ghost use Rattle.walk_rules.specs.Names.{deepest, names_of};
ghost use Rattle.walk_rules.specs.Step.{goes_on, step_from};

use crate::names::is_container;
use crate::{DEEPEST, Handed, LEVELS, Visit, Walked, Walker};
use item::{Item, Step};

// Where a walk goes on after an item at depth d.
fn goes_on(names: &[u8], d: usize, ends: [usize; LEVELS], i: Item) -> Walker
    requires { (d ≤ deepest) × (next_of i < 2 ^ 64) }
    ensures { result ≡ goes_on (names_of names.now) d ends i }
{
    let after = i.from + i.len.0;
    if d < DEEPEST && is_container(names, i.name) {
        let mut inner = ends;
        inner[d + 1] = after;
        return Walker {
            refusal: 0,
            at: i.from,
            depth: d + 1,
            ends: inner,
        };
    }
    Walker {
        refusal: 0,
        at: after,
        depth: d,
        ends,
    }
}

// What a walk answers that stays where it is.
fn stays(handed: Result<Handed, u8>, at: usize, depth: usize, ends: [usize; LEVELS]) -> Walked
    ensures { result ≡ record { handed = handed; next = record { refusal = 0; at = at; depth = depth; ends = ends } } }
{
    Walked {
        handed,
        next: Walker {
            refusal: 0,
            at,
            depth,
            ends,
        },
    }
}

// A step from `at` at depth `depth`, or at the deepest where that is deeper: at the end of an inner packet the walk goes on behind its container.
pub fn step_from(s: &[u8], names: &[u8], from: usize, depth: usize, ends: [usize; LEVELS]) -> Walked
    ensures { result ≡ step_from s.now (names_of names.now) from (min depth deepest) ends }
{
    let mut at = from;
    let mut d = depth.min(DEEPEST);
    // A loop and no iterator: place and depth move together, out of each inner packet that ends, until there is an answer.
    loop {
        let end = ends[d].min(s.len());
        match item::step_in(s, at, end) {
            Ok(Step::Item(i)) => {
                let next = goes_on(names, d, ends, i);
                return Walked {
                    handed: Ok(Handed::Item(Visit { depth: d, item: i })),
                    next,
                };
            }
            Ok(Step::End(p)) => {
                if d == 0 {
                    return stays(Ok(Handed::End(p)), at, 0, ends);
                }
                at = end;
                d = d - 1;
            }
            Err(e) => {
                return stays(Err(u8::from(e)), at, d, ends);
            }
        }
    }
}
