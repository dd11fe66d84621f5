// The items of a packet for C: finding one by its name, or by its name and number, and a walk, which C holds as bytes.
ghost use Rattle.std.specs.Prelude.{◌≡◌, ◌∷◌, length};
ghost use Rattle.base_rules.specs.Bytes.{number_at};
ghost use Rattle.item_rules.specs.Item.{values_of};
ghost use Rattle.tag_rules.specs.Calls.{values_at, locate_call, locate_nth_call};
ghost use Rattle.card_rules.specs.Told.{CardWritten, CardTold};
ghost use Rattle.card_rules.specs.Items.{repeats_of, found_widths, walker_bytes, walker_bytes_of, walker_from, walk_open_call};
ghost use Rattle.card_rules.specs.Items.{step_widths, stepped_number, CardStepped};

use crate::telling::{Tells, tell, tell_answer};
use item::{Item, Repeats};
use tag::Located;
use walk::{Handed, LEVELS, Walker};

// The bytes of a walk: eight for its position, for its depth, and for the end at each depth.
const WALKER: usize = 8 * (LEVELS + 2);

// The bytes that finding tells, and their widths; card_rules/specs/Items.antt says of what.
const TOLD_FIND: usize = 26;

const FOUND_WIDTHS: [usize; 7] = [1, 0, 4, 8, 4, 8, 1];

// Those of a step.
const TOLD_STEP: usize = 31;

const STEP_WIDTHS: [usize; 8] = [1, 1, 4, 4, 8, 4, 8, 1];

// What C says of repeats: 0 forbids them.
fn repeats_of(repeats: usize) -> Repeats
    ensures { result ≡ repeats_of repeats }
{
    if repeats == 0 {
        Repeats::Forbidden
    } else {
        Repeats::Allowed
    }
}

// What is told of an item found: the packet that it is in, and its values.
fn found_values(which: usize, i: Item) -> [usize; 7]
    ensures { result ≡ which ∷ values_of i }
{
    [
        which,
        i.name as usize,
        i.bits.0 as usize,
        i.from,
        i.len.0,
        i.start,
        i.unused.0 as usize,
    ]
}

// What is told of where a name was found.
impl Tells<7> for Located {
    ghost values = { values_at };

    fn figures(self) -> [usize; 7] {
        match self {
            Located::Packet(i) => found_values(0, i),
            Located::Standing(i) => found_values(1, i),
        }
    }
}

// Finds an item by its name in a packet, else in the standing packet beside it, tells where it is, and gives 0; else the number of the
// refusal.
pub fn bailhammer_find(
    packet: &[u8],
    standing: &[u8],
    name: u32,
    repeats: usize,
    told: &mut [u8],
) -> usize
    ensures { CardTold found_widths (locate_call (repeats_of repeats) packet.now standing.now name)
        told.old told.new result }
{
    let l = tag::locate(packet, standing, repeats_of(repeats), name);
    tell_answer(l, told, TOLD_FIND, &FOUND_WIDTHS)
}

// Finds the occurrence of a name and number, counted from 0, in a packet alone, tells where it is, and gives 0; else the number of the
// refusal.
pub fn bailhammer_nth(
    packet: &[u8],
    name: u32,
    number: usize,
    repeats: usize,
    told: &mut [u8],
) -> usize
    ensures { CardTold found_widths (locate_nth_call (repeats_of repeats) packet.now name number) told.old
        told.new result }
{
    let l = occurrence::locate_nth(packet, repeats_of(repeats), name, number);
    tell_answer(l, told, TOLD_FIND, &FOUND_WIDTHS)
}

// Writes a walk as bytes.
fn write_walker(d: &mut [u8], w: Walker)
    requires { length d.old ≡ walker_bytes }
    ensures { d.new ≡ walker_bytes_of w }
{
    let ends = w.ends;
    let values = [w.at, w.depth, ends[0], ends[1], ends[2], ends[3], ends[4]];
    tell(d, WALKER, &[8; 7], &values);
}

// The number in the eight bytes from i on; a byte past the end counts as 0.
fn read8(s: &[u8], i: usize) -> usize
    ensures { result ≡ number_at 8 s.now i }
{
    if i < s.len() {
        base::read4(s, i) as usize * 4294967296 + base::read4(s, i + 4) as usize
    } else {
        0
    }
}

// The walk that bytes are.
fn walker_from(s: &[u8]) -> Walker
    ensures { result ≡ walker_from s.now }
{
    let ends = [
        read8(s, 16),
        read8(s, 24),
        read8(s, 32),
        read8(s, 40),
        read8(s, 48),
    ];
    Walker {
        refusal: 0,
        at: read8(s, 0),
        depth: read8(s, 8),
        ends,
    }
}

// Opens a walk through a packet and the containers in it that have one of the names, and gives 0; else the number of the refusal.
pub fn bailhammer_walk_open(packet: &[u8], names: &[u8], repeats: usize, walker: &mut [u8]) -> usize
    ensures { CardWritten (walk_open_call (repeats_of repeats) packet.now names.now walker.old)
        walker.new result }
{
    let w = walk::open_walk(packet, names, repeats_of(repeats));
    let n = w.refusal;
    if n != 0 {
        return n as usize;
    }
    if walker.len() != WALKER {
        return 1;
    }
    write_walker(walker, w);
    0
}

// Tells what a step hands out, and gives the number of the answer. A walk refuses by a number, which C may have made, so this is no answer for
// `tell_answer`.
fn tell_step(h: Result<Handed, u8>, told: &mut [u8]) -> usize
    ensures { CardTold step_widths (stepped_number h) told.old told.new result }
{
    match h {
        Ok(handed) => match handed {
            Handed::Item(v) => {
                let i = v.item;
                let values = [
                    1,
                    v.depth,
                    i.name as usize,
                    i.bits.0 as usize,
                    i.from,
                    i.len.0,
                    i.start,
                    i.unused.0 as usize,
                ];
                tell(told, TOLD_STEP, &STEP_WIDTHS, &values)
            }
            Handed::End(p) => tell(told, TOLD_STEP, &STEP_WIDTHS, &[0, 0, 0, 0, 0, p.0, 0, 0]),
        },
        Err(n) => n as usize,
    }
}

// Hands out the next item of a walk, and gives 0; else the number of the refusal.
pub fn bailhammer_walk_step(
    packet: &[u8],
    names: &[u8],
    walker: &mut [u8],
    told: &mut [u8],
) -> usize
    ensures { CardStepped packet.now names.now walker.old walker.new told.old
        told.new result }
{
    if walker.len() != WALKER {
        return 1;
    }
    if told.len() < TOLD_STEP {
        return 1;
    }
    let w = walker_from(walker);
    let x = walk::walk_step(packet, names, w);
    let n = tell_step(x.handed, told);
    if n == 0 {
        write_walker(walker, x.next);
    }
    n
}
