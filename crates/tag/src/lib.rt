// A TAG packet: checked whole, read item by item, and searched by name beside a standing packet.
#![tactic(auto)]

ghost use Rattle.std.specs.Prelude.{◌≡◌, ◌∷◌};
ghost use Rattle.base_rules.specs.Refusal.{fault_in};
ghost use Rattle.base_rules.specs.Tests.{bit};
ghost use Rattle.item_rules.specs.Item.{values_of};
ghost use Rattle.tag_rules.specs.Find.{check_of, locate_of, value_of, value_place, PartShown};
ghost use Rattle.tag_rules.specs.Calls.{opened_number, open_call, read_of, read_number, read_call, after_of, sought_number, values_at, located_number, locate_call, ToldAlike};

use base_rules::Refusal;
use item::{Item, Repeats, Step};
pub use tag_rules::{Hit, Located};

// Refuses the leftmost item at fault of a whole packet. A name whose slot has no mark has not stood before, so that few names are
// searched for; where names may repeat none is.
fn check(packet: &[u8], repeats: Repeats) -> Result<(), Refusal>
    ensures { fault_in result ≡ check_of repeats packet.now }
{
    let end = packet.len();
    let mut marks = item::no_marks();
    let mut at = 0;
    // A loop and no iterator: each item says where the next begins.
    loop {
        let step = item::step_in(packet, at, end)?;
        match step {
            Step::Item(i) => {
                let h = item::slot(i.name);
                let mark = item::marked(repeats, marks[h]);
                item::fault_of(packet, 0, end, i, mark)?;
                marks[h] = true;
                at = i.from + i.len.0;
            }
            Step::End(_) => {
                return Ok(());
            }
        }
    }
}

// Opens a reader: the whole packet is checked before the first item is handed out.
pub fn open_reader(packet: &[u8], repeats: Repeats) -> Result<usize, Refusal>
    ensures { opened_number result ≡ open_call repeats packet.now }
{
    check(packet, repeats).and(Ok(0))
}

// What a reader at `at` hands out; `refusal` is the number with which its packet was refused, or 0. The refusal of a step is a number, since a caller
// may hand any in, and it is shown as it is.
pub fn read_at(packet: &[u8], at: usize, refusal: u8) -> Result<Step, u8>
    ensures { (result ≡ read_of packet.now at refusal) × (read_number result ≡ read_call packet.now at refusal) }
{
    if refusal != 0 {
        return Err(refusal);
    }
    item::step_in(packet, at, packet.len()).map_err(u8::from)
}

// Where the reader stands then: behind the item; at the end, or refused, it stays. `refusal` is the caller's number, which may be any.
pub fn read_after(packet: &[u8], at: usize, refusal: u8) -> usize
    ensures { result ≡ after_of packet.now at refusal }
{
    match read_at(packet, at, refusal) {
        Ok(Step::Item(i)) => i.from + i.len.0,
        Ok(Step::End(_)) => at,
        Err(_) => at,
    }
}

// Where the name is: both packets are checked whole, the packet first, before either is searched.
pub fn locate(
    packet: &[u8],
    standing: &[u8],
    repeats: Repeats,
    name: u32,
) -> Result<Located, Refusal>
    ensures { (result ≡ locate_of repeats packet.now standing.now name)
        × (located_number result ≡ locate_call repeats packet.now standing.now name) }
{
    check(packet, repeats)?;
    check(standing, repeats)?;
    if let Some(i) = item::first_in(packet, name, 0, packet.len()) {
        return Ok(Located::Packet(i));
    }
    match item::first_in(standing, name, 0, standing.len()) {
        Some(i) => Ok(Located::Standing(i)),
        None => Err(Refusal::Absent),
    }
}

// The value of an item, as a part of the packet that it stands in. What passes the end of the packet is left out.
pub fn value(packet: &[u8], i: Item) -> &[u8]
    ensures { (result.now ≡ value_of packet.now i) × (result.ref_ptr ≡ value_place packet.entry i) }
{
    let from = i.from;
    if packet.len() < from {
        return &packet[..0];
    }
    if packet.len() - from < i.len.0 {
        return &packet[from..];
    }
    let end = from + i.len.0;
    &packet[from..end]
}

// Which packet has a name, and the item there. A function and no `From`, since both types are of another crate.
fn hit(l: Located) -> Hit
    ensures { bit result.standing ∷ values_of result.item ≡ values_at l }
{
    match l {
        Located::Packet(item) => Hit {
            standing: false,
            item,
        },
        Located::Standing(item) => Hit {
            standing: true,
            item,
        },
    }
}

// What a search answers, by where a name is: which packet has it and the item there, or the refusal. A caller's own kind of refusal, such
// as a number, is handed on as it is. A function and no `From`, since none of the types is of this crate.
pub fn sought<E>(l: Result<Located, E>) -> Result<Hit, E>
    ensures { ToldAlike l result }
{
    l.map(hit)
}

// Searches for a name in the packet, then in the standing packet, and answers which has it and the item there, or the refusal.
pub fn search(packet: &[u8], standing: &[u8], repeats: Repeats, name: u32) -> Result<Hit, Refusal>
    ensures { sought_number result ≡ locate_call repeats packet.now standing.now name }
{
    let l = locate(packet, standing, repeats, name);
    sought(l)
}

// What `find` shows, of two packets that are lent for one lifetime.
fn shown<'a>(packet: &'a [u8], standing: &'a [u8], repeats: Repeats, name: u32) -> &'a [u8]
    ensures { PartShown repeats packet.entry standing.entry name result }
{
    match locate(packet, standing, repeats, name) {
        Ok(Located::Packet(i)) => value(packet, i),
        Ok(Located::Standing(i)) => value(standing, i),
        Err(_) => &packet[..0],
    }
}

// The value of the item that `search` finds, as a part of the packet or of the standing packet, each lent for a lifetime of its own; empty where the
// search is refused. It is thin: the work is done at the one lifetime of the part.
pub fn find<'p: 'r, 's: 'r, 'r>(
    packet: &'p [u8],
    standing: &'s [u8],
    repeats: Repeats,
    name: u32,
) -> &'r [u8]
    ensures { PartShown repeats packet.entry standing.entry name result }
{
    let part = shown(packet, standing, repeats, name);
    part
}
