// Products in the field by shift and select: no table, and many lanes at a time in a loop over an array. What is computed is promised for
// any rows lent; that rows of multiples give products is a law of code_rules. A loop over lanes goes by an index, since it reads several
// arrays at it and writes another.
#![tactic(auto)]

ghost use Rattle.std.specs.Prelude.{◌≡◌, ◌*◌, ◌/◌, ◌%◌, ◌<◌};
ghost use Rattle.field_rules.specs.Field.{◌⊗◌};
ghost use Rattle.codeword.specs.Code.{plus};
ghost use Rattle.code_rules.specs.inner.Kernel.{Chain, Multiples, lane_by, dotted};
ghost use Rattle.code_rules.specs.inner.Patterns.{times_all};

use base::PARITY;
pub use field::twice;

// Eight rows of lanes, each twice the one before.
pub const MULTIPLES: usize = 8 * PARITY;

// v where the bit of a is set
fn pick(a: u8, bit: u8, v: u8) -> u8
    requires { 0 < bit }
    ensures { result ≡ a / bit % 2 * v }
{
    if a / bit % 2 == 0 { 0 } else { v }
}

// The sum of those of eight numbers whose bit of a is set: the product of k0 and a where each is twice the one before.
fn dot(a: u8, k0: u8, k1: u8, k2: u8, k3: u8, k4: u8, k5: u8, k6: u8, k7: u8) -> u8
    ensures { result ≡ dotted a k0 k1 k2 k3 k4 k5 k6 k7 }
{
    field::sum(
        pick(a, 1, k0),
        field::sum(
            pick(a, 2, k1),
            field::sum(
                pick(a, 4, k2),
                field::sum(
                    pick(a, 8, k3),
                    field::sum(
                        pick(a, 16, k4),
                        field::sum(
                            pick(a, 32, k5),
                            field::sum(pick(a, 64, k6), pick(a, 128, k7)),
                        ),
                    ),
                ),
            ),
        ),
    )
}

// The product of two numbers. In a loop over a the doubles of x are made once.
pub fn product(a: u8, x: u8) -> u8
    ensures { result ≡ x ⊗ a }
{
    let c1 = twice(x);
    let c2 = twice(c1);
    let c3 = twice(c2);
    let c4 = twice(c3);
    let c5 = twice(c4);
    let c6 = twice(c5);
    let c7 = twice(c6);
    dot(a, x, c1, c2, c3, c4, c5, c6, c7)
}

// q + x b
pub fn added(q: [u8; PARITY], x: u8, b: [u8; PARITY]) -> [u8; PARITY]
    ensures { result ≡ plus x b q }
{
    let mut n = q;
    for m in 0..PARITY {
        n[m] = field::sum(q[m], product(b[m], x));
    }
    n
}

// a b in each lane
pub fn times_lanes(a: [u8; PARITY], b: [u8; PARITY]) -> [u8; PARITY]
    ensures { result ≡ times_all a b }
{
    let mut r = [0u8; PARITY];
    for m in 0..PARITY {
        r[m] = product(a[m], b[m]);
    }
    r
}

// s x + r in each lane, with the multiples of each x in k.
pub fn lanes(k: &[u8; MULTIPLES], s: [u8; PARITY], r: [u8; PARITY]) -> [u8; PARITY]
    ensures { result ≡ lane_by k.now s r }
{
    let mut q = [0u8; PARITY];
    for m in 0..PARITY {
        let p = dot(
            s[m],
            k[m],
            k[m + 48],
            k[m + 96],
            k[m + 144],
            k[m + 192],
            k[m + 240],
            k[m + 288],
            k[m + 336],
        );
        q[m] = field::sum(p, r[m]);
    }
    q
}

// Eight rows of 48, each twice the one before.
pub fn multiples(x: [u8; PARITY]) -> [u8; MULTIPLES]
    ensures { Multiples x result }
{
    let mut k = [0u8; MULTIPLES];
    k[..PARITY].copy_from_slice(&x);
    // An index, since each is made from one of the same array, a row before.
    for i in PARITY..MULTIPLES {
        k[i] = twice(k[i - PARITY]);
    }
    k
}
