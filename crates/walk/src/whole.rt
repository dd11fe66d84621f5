// The whole walk: walking a packet calls walking an item, which calls walking its value, which is a packet again. What is left of the bytes falls.
ghost use Rattle.std.specs.Prelude.{◌≡◌, ◌&&◌, [], ◌+◌, ◌-◌, ◌^◌, ◌≤◌, ◌<◌};
ghost use Rattle.base_rules.specs.Refusal.{fault_in};
ghost use Rattle.item_rules.specs.Run.{run_of, first_of, is_before, next_of};
ghost use Rattle.walk_rules.specs.Names.{deepest, names_of};
ghost use Rattle.walk_rules.specs.Walk.{tour_at, refusal, walk_of};
ghost use Rattle.walk_rules.specs.inner.Whole.{item_refusal};

use crate::DEEPEST;
use crate::names::{fault, is_container};
use base::Refusal;
use item::{Item, Repeats, Step};

// Refused where the walk of the packet from `from` to `end` is. The marks tell which names have not stood before.
#[cycle(walk_item_walk_packet_walk_value)]
fn walk_packet(
    s: &[u8],
    names: &[u8],
    repeats: Repeats,
    from: usize,
    end: usize,
    depth: usize,
) -> Result<(), Refusal>
    requires { depth ≤ deepest + 1 }
    ensures { fault_in result ≡ refusal (tour_at repeats (deepest + 1 - depth) s.now (names_of names.now) depth []
        (run_of s.now from end)) }
{
    let mut marks = item::no_marks();
    let mut at = from;
    // A loop and no iterator: each item says where the next begins.
    loop {
        let step = item::step_in(s, at, end)?;
        match step {
            Step::Item(i) => {
                let h = item::slot(i.name);
                let mark = item::marked(repeats, marks[h]);
                walk_item(s, names, repeats, from, end, depth, i, mark)?;
                marks[h] = true;
                at = i.from + i.len.0;
            }
            Step::End(_) => {
                return Ok(());
            }
        }
    }
}

// The same for an item of that packet: its own fault, then its value's.
#[cycle(walk_item_walk_packet_walk_value)]
fn walk_item(
    s: &[u8],
    names: &[u8],
    repeats: Repeats,
    from: usize,
    end: usize,
    depth: usize,
    i: Item,
    mark: bool,
) -> Result<(), Refusal>
    requires { (depth ≤ deepest + 1) × (next_of i ≤ end) }
    ensures { fault_in result ≡ item_refusal repeats (deepest + 1 - depth) s.now (names_of names.now) depth
        (mark && is_before (first_of i.name (run_of s.now from end)) i.from) i }
{
    item::fault_of(s, from, end, i, mark)?;
    let inside = is_container(names, i.name);
    if inside && i.bits.0 % 8 != 0 {
        return Err(Refusal::Whole);
    }
    if DEEPEST < depth {
        return Err(Refusal::Depth);
    }
    if inside {
        walk_value(s, names, repeats, depth, i)
    } else {
        Ok(())
    }
}

// The same for a container's value.
#[cycle(walk_item_walk_packet_walk_value)]
fn walk_value(
    s: &[u8],
    names: &[u8],
    repeats: Repeats,
    depth: usize,
    i: Item,
) -> Result<(), Refusal>
    requires { (depth ≤ deepest) × (next_of i < 2 ^ 64) }
    ensures { fault_in result ≡ refusal (tour_at repeats (deepest - depth) s.now (names_of names.now) (depth + 1) []
        (run_of s.now i.from (next_of i))) }
{
    walk_packet(s, names, repeats, i.from, i.from + i.len.0, depth + 1)
}

// Refused where the walk of a whole packet is: the list of names is checked first.
pub fn check(packet: &[u8], names: &[u8], repeats: Repeats) -> Result<(), Refusal>
    ensures { fault_in result ≡ refusal (walk_of repeats packet.now names.now) }
{
    fault(names)?;
    walk_packet(packet, names, repeats, 0, packet.len(), 0)
}
