// The occurrences of a name in a TAG packet, each by its number, counted from 0: in the packet alone, without a standing packet.
#![tactic(auto)]

ghost use Rattle.std.specs.Prelude.{◌≡◌};
ghost use Rattle.item_rules.specs.Run.{nth_of};
ghost use Rattle.tag_rules.specs.Find.{whole_run, locate_nth_of, NthPartShown};
ghost use Rattle.tag_rules.specs.Calls.{sought_number, located_number, locate_nth_call};

use base_rules::Refusal;
use item::{Item, Repeats};
use tag::{Hit, Located};

// The occurrence of that name and number in a packet: one pass, which goes past as many of that name as the number says.
fn nth_in(packet: &[u8], name: u32, number: usize) -> Option<Item>
    ensures { result ≡ nth_of name number (whole_run packet.now) }
{
    let end = packet.len();
    let mut at = 0;
    for _ in 0..number {
        let Some(i) = item::first_in(packet, name, at, end) else {
            return None;
        };
        at = i.from + i.len.0;
    }
    item::first_in(packet, name, at, end)
}

// Where the occurrence of that number is, counted from 0: the packet alone is checked whole and searched.
pub fn locate_nth(
    packet: &[u8],
    repeats: Repeats,
    name: u32,
    number: usize,
) -> Result<Located, Refusal>
    ensures { (result ≡ locate_nth_of repeats packet.now name number)
        × (located_number result ≡ locate_nth_call repeats packet.now name number) }
{
    tag::open_reader(packet, repeats)?;
    let f = nth_in(packet, name, number);
    match f {
        Some(i) => Ok(Located::Packet(i)),
        None => Err(Refusal::Absent),
    }
}

// Searches for an occurrence of a name in the packet alone, and answers the item, always as one of the packet, or the refusal.
pub fn search_nth(packet: &[u8], repeats: Repeats, name: u32, number: usize) -> Result<Hit, Refusal>
    ensures { sought_number result ≡ locate_nth_call repeats packet.now name number }
{
    let l = locate_nth(packet, repeats, name, number);
    tag::sought(l)
}

// The value of the occurrence that `search_nth` finds, as a part of the packet; empty where the search is refused. It is never `Standing`, since no
// standing packet is lent.
pub fn find_nth<'a>(packet: &'a [u8], repeats: Repeats, name: u32, number: usize) -> &'a [u8]
    ensures { NthPartShown repeats packet.entry name number result }
{
    match locate_nth(packet, repeats, name, number) {
        Ok(Located::Packet(i)) => tag::value(packet, i),
        Ok(Located::Standing(_)) => &packet[..0],
        Err(_) => &packet[..0],
    }
}
