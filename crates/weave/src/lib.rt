// Fragments at work (clause 7): a block's bytes to fragments, fragments to cells again, and whether those held suffice.
#![tactic(auto)]

mod rows;
mod tally;

ghost use Rattle.std.specs.Prelude.{◌≡◌, false};
ghost use Rattle.weave_rules.specs.Calls.{bad_count, too_much};

use base::{MOST_F, PLACE};
pub use rows::{deinterleave, interleave};
pub use tally::enough;
pub use weave_rules::Held;

// Whether f is no count of fragments.
fn bad_count(f: usize) -> bool
    ensures { result ≡ bad_count f }
{
    f == 0 || MOST_F < f
}

// Whether f fragments of s bytes are more than a place holds; s is looked at first, so that the product fits.
fn too_much(f: usize, s: usize) -> bool
    requires { bad_count f ≡ false }
    ensures { result ≡ too_much f s }
{
    PLACE < s || PLACE < f * s
}
