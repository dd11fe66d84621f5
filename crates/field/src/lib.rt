// The field of 256 elements (clause 7.3.1 of TS 102 821): a product by shift and add, without a table; powers and logarithms from two
// tables, and a quotient from them.
#![tactic(auto)]

ghost use Rattle.std.specs.Prelude.{◌≡◌, ◌*◌, ◌%◌, ◌<◌};
ghost use Rattle.field_rules.specs.Field.{◌⊕◌, times2, ◌⊗◌, alpha, log_of};
ghost use Rattle.field_rules.specs.inner.Tables.{Exps, Logs, Logged};
ghost use Rattle.field_rules.specs.Calls.{number_of, quotient_of, logarithm_of};

use tables::{EXP, LOG};

mod tables;

use base_rules::Refusal;
use field_rules::Pair;

// What x^8 is in the field, x^4 + x^3 + x^2 + 1: 11D hex without x^8.
pub const REDUCED: u8 = 0x1D;

// The table of the powers. It is named here alone, so that its rule is tested once.
fn powers() -> [u8; 255]
    ensures { Exps result }
{
    EXP
}

// The table of the logarithms, named here alone too.
fn logarithms() -> [u8; 256]
    ensures { Logs result }
{
    LOG
}

// The power alpha^e, from the table.
fn raised(e: usize) -> u8
    requires { e < 255 }
    ensures { result ≡ alpha e }
{
    let t = powers();
    t[e]
}

// The logarithm of an element but 0, from the lent table.
fn entry(t: &[u8; 256], x: u8) -> u8
    requires { (0 < x) × Logs t.now }
    ensures { result ≡ log_of x }
{
    t[usize::from(x)]
}

// The logarithms of two elements but 0.
fn logs(a: u8, b: u8) -> Pair
    requires { (0 < a) × (0 < b) }
    ensures { Logged a result.a × Logged b result.b }
{
    // Asked for once for both, and lent: each call lays all of it out anew.
    let t = logarithms();
    let i = usize::from(entry(&t, a));
    let j = usize::from(entry(&t, b));
    Pair { a: i, b: j }
}

// The sum of two elements, and their difference.
pub fn sum(a: u8, b: u8) -> u8
    ensures { result ≡ a ⊕ b }
{
    a ^ b
}

// An element times alpha: moved up one place, and where bit 7 falls out of the byte, what x^8 is in the field is added.
pub fn twice(x: u8) -> u8
    ensures { result ≡ times2 x }
{
    let moved = x % 128 * 2;
    if x < 128 { moved } else { sum(moved, REDUCED) }
}

// r, with x added where the lowest bit of y is set.
fn with_bit(r: u8, x: u8, y: u8) -> u8
    ensures { result ≡ r ⊕ y % 2 * x }
{
    if y % 2 == 0 { r } else { sum(r, x) }
}

// The product of two elements, without a table: for each bit of b that is set, the lowest first, a is added, times alpha as often as the
// bit's place says. A loop over bytes takes `product` of `code_lanes`, which has no turns.
pub fn product(a: u8, b: u8) -> u8
    ensures { result ≡ a ⊗ b }
{
    let mut r = 0;
    let mut x = a;
    let mut y = b;
    // A turn for each of the eight bits: r, x and y move in each, and there is nothing to go over.
    for _ in 0..8usize {
        r = with_bit(r, x, y);
        x = twice(x);
        y = y / 2;
    }
    r
}

// An element divided by an element but 0.
pub fn quotient(a: u8, b: u8) -> Result<u8, Refusal>
    ensures { number_of result ≡ quotient_of a b }
{
    if b == 0 {
        return Err(Refusal::Zero);
    }
    if a == 0 {
        return Ok(0);
    }
    let l = logs(a, b);
    Ok(raised((l.a + 255 - l.b) % 255))
}

// The power alpha^e.
pub fn power(e: usize) -> u8
    ensures { result ≡ alpha e }
{
    raised(e % 255)
}

// The logarithm of an element but 0.
pub fn logarithm(x: u8) -> Result<u8, Refusal>
    ensures { number_of result ≡ logarithm_of x }
{
    if x == 0 {
        return Err(Refusal::Zero);
    }
    let t = logarithms();
    Ok(entry(&t, x))
}
