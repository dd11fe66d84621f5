// The card for C: card.h declares the calls, and says what each number means. Here stands what several of them share.
#![tactic(auto)]

mod blocks;
mod headers;
mod items;
mod losses;
mod packets;
mod receiving;
mod sending;
mod telling;

ghost use Rattle.std.specs.Prelude.{◌≡◌};
ghost use Rattle.base_rules.specs.Refusal.{number};
ghost use Rattle.base_rules.specs.Written.{number_of};
ghost use Rattle.card_rules.specs.Calls.{address_of};
ghost use Rattle.card_rules.specs.Told.{refusal_in};

use base::Refusal;
pub use blocks::{bailhammer_encode, bailhammer_fill};
use cut::Address;
pub use headers::bailhammer_parse;
pub use items::{bailhammer_find, bailhammer_nth, bailhammer_walk_open, bailhammer_walk_step};
pub use losses::bailhammer_endure;
pub use packets::{bailhammer_check, bailhammer_item, bailhammer_wrap};
pub use receiving::{bailhammer_clear, bailhammer_query, bailhammer_receive};
pub use sending::{bailhammer_fragment, bailhammer_fragments, bailhammer_plan};

// The number of a refusal, as it is given back.
fn refused(e: Refusal) -> usize
    ensures { result ≡ number e }
{
    u8::from(e) as usize
}

// The number of a writing's answer.
fn written_number(w: Result<(), Refusal>) -> usize
    ensures { result ≡ refusal_in (number_of w) }
{
    match w {
        Ok(()) => 0,
        Err(e) => refused(e),
    }
}

// The address, where there is to be one.
fn address_of(addressed: usize, source: u16, dest: u16) -> Option<Address>
    ensures { result ≡ address_of addressed source dest }
{
    if addressed == 0 {
        return None;
    }
    Some(Address { source, dest })
}
