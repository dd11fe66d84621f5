// Clause 5 as definitions: a packet checked whole, read item by item, and searched by name. No functions: crate `tag` has them.
#![tactic(auto)]

use item_rules::Item;

// What a search finds: the item, and whether it stands in the standing packet or in the packet.
#[derive(Clone, Copy, Debug, PartialEq, Eq)]
pub struct Hit {
    pub standing: bool,
    pub item: Item,
}

// Where a name is found: the item, in the packet or in the standing packet.
#[derive(Clone, Copy, Debug, PartialEq, Eq)]
pub enum Located {
    Packet(Item),
    Standing(Item),
}
