// A TAG item in a packet, and a packet as a run of items.
#![tactic(auto)]

ghost use Rattle.std.specs.Prelude.{◌≡◌, false, ◌&&◌, ◌%◌, ◌<◌, replicate};
ghost use Rattle.base_rules.specs.Answer.{granted};
ghost use Rattle.base_rules.specs.Refusal.{fault_in};
ghost use Rattle.item_rules.specs.Item.{bytes_for, unused_of, step_in, number_of, step_call};
ghost use Rattle.item_rules.specs.Run.{run_of, first_of, first_values, found_number, bad_ptr, fault_of, forbids, is_before, slots};

use base::Refusal;
pub use item_rules::{Bits, Bytes, Item, Repeats, Step};

// The bytes before a value.
pub const HEAD: usize = 8;

// "*dmy", filler, which may stand more than once.
const DMY: u32 = 0x2A646D79;

// "*ptr", and the bits of its value.
const PTR: u32 = 0x2A707472;

const PTR_BITS: u32 = 64;

// The slots of the marks by which a name is known not to have stood before: a prime, so that names that differ little differ in their slot.
pub const SLOTS: usize = 4093;

// The one conversion: the bytes that hold so many bits.
pub fn bytes_of(bits: Bits) -> Bytes
    ensures { result.0 ≡ bytes_for bits.0 }
{
    Bytes((bits.0 as usize + 7) / 8)
}

// The bits of its last byte that a value of so many bits leaves unused; one of no bits has no last byte, and leaves none.
pub fn unused_of(bits: Bits) -> Bits
    ensures { result.0 ≡ unused_of bits.0 }
{
    let n = bytes_of(bits);
    Bits((8 * n.0 - bits.0 as usize) as u32)
}

// What stands at `at` in the packet that ends before `end`. Always made part of its caller: a step that is handed back goes through memory, and
// each of the five callers is a loop over the items or one turn of one.
#[inline(always)]
pub fn step_in(s: &[u8], at: usize, end: usize) -> Result<Step, Refusal>
    ensures { (result ≡ step_in s.now at end) × (number_of result ≡ step_call s.now at end) }
{
    if end < at {
        return Ok(Step::End(Bytes(0)));
    }
    let left = end - at;
    if left < HEAD {
        return Ok(Step::End(Bytes(left)));
    }
    let name = base::read4(s, at);
    let bits = Bits(base::read4(s, at + 4));
    let len = bytes_of(bits);
    if left - HEAD < len.0 {
        return Err(Refusal::Overrun);
    }
    let unused = unused_of(bits);
    let from = at + HEAD;
    Ok(Step::Item(Item {
        name,
        bits,
        from,
        len,
        start: at,
        unused,
    }))
}

// The first item of that name in the packet from `from` to `end`.
pub fn first_in(s: &[u8], name: u32, from: usize, end: usize) -> Option<Item>
    ensures { (result ≡ first_of name (run_of s.now from end))
        × (found_number result ≡ granted (first_values name (run_of s.now from end))) }
{
    let mut at = from;
    // A loop and no iterator: each item says where the next begins.
    loop {
        let Ok(step) = step_in(s, at, end) else {
            return None;
        };
        match step {
            Step::Item(i) => {
                if i.name == name {
                    return Some(i);
                }
                at = i.from + i.len.0;
            }
            Step::End(_) => {
                return None;
            }
        }
    }
}

// Whether there is a mark and an item of that name stands before `at`. Where there is no mark nothing is searched.
fn again(s: &[u8], name: u32, from: usize, end: usize, at: usize, mark: bool) -> bool
    ensures { result ≡ (mark && is_before (first_of name (run_of s.now from end)) at) }
{
    if mark {
        let f = first_in(s, name, from, end);
        match f {
            Some(j) => j.from < at,
            None => false,
        }
    } else {
        false
    }
}

// Whether it is a "*ptr" whose bits are not 64.
pub fn bad_ptr(name: u32, bits: Bits) -> bool
    ensures { result ≡ bad_ptr name bits.0 }
{
    name == PTR && bits.0 != PTR_BITS
}

// Refused where an item of the packet from `from` to `end` is at fault; `mark` is whether the slot of its name is marked and that
// counts.
pub fn fault_of(s: &[u8], from: usize, end: usize, i: Item, mark: bool) -> Result<(), Refusal>
    ensures { fault_in result ≡ fault_of (mark && is_before (first_of i.name (run_of s.now from end)) i.from) i }
{
    // A test for each refusal, in the order in which they are due: a function for each, with `?`, would hold the same test.
    if i.name == DMY {
        return Ok(());
    }
    if again(s, i.name, from, end, i.from, mark) {
        return Err(Refusal::Twice);
    }
    if bad_ptr(i.name, i.bits) {
        Err(Refusal::Ptr)
    } else {
        Ok(())
    }
}

// The mark of a name's slot as it counts by the caller's word: where names may repeat it does not, and so nothing is searched.
// A flag, since the caller keeps one for each slot, and `again` alone asks it.
pub fn marked(repeats: Repeats, mark: bool) -> bool
    ensures { result ≡ (forbids repeats && mark) }
{
    match repeats {
        Repeats::Forbidden => mark,
        Repeats::Allowed => false,
    }
}

// The slot of a name.
pub fn slot(name: u32) -> usize
    ensures { (result ≡ name % slots) × (result < slots) }
{
    name as usize % SLOTS
}

// No slot marked. A function of its own, so that a caller's proof has a name for the array and not its elements.
pub fn no_marks() -> [bool; SLOTS]
    ensures { result ≡ replicate slots false }
{
    [false; SLOTS]
}
