// The four places: the record of what they hold, and what a fragment does to it. The bytes themselves are lent elsewhere.
#![tactic(auto)]

mod faults;
mod record;

pub use faults::{bad_place, bad_table, place_fault};
pub use places_rules::{ALL_PLACES, DELIVERED, FOUR, FREE, OPEN, Place, SPOILED, Table};
pub use record::{
    displaced_at, fresh, held_at, in_condition, kept_in, offset_of, open_at, opened_by, place_at,
    turned, with_place,
};
