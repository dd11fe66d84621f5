// The register of the encoder, eight bytes a step, and what the generator leaves of a chunk. What is computed is promised for any table lent.
ghost use Rattle.std.specs.Prelude.{◌≡◌, ◌+◌, ◌/◌, ◌≤◌, ◌<◌, length, drop};
ghost use Rattle.base_rules.specs.Bounds.{most_k, parity};
ghost use Rattle.code_rules.specs.inner.Kernel.{sum_of};
ghost use Rattle.code_rules.specs.inner.Register.{byte_by, eight_by, register_by, parity_by, remainder_by};

use crate::rows::{HALF, POWER, TABLE, shifted};
use base::{MOST_K, PARITY};

// The places of the data bytes and of a zero before them: eight go in at a step.
const LAID: usize = MOST_K + 1;

// The steps that take them all in.
const STEPS: usize = LAID / 8;

// The rows of power n for the two halves of x, added to q: x times the power, where the table is made.
fn byte_in(q: &mut [u8; PARITY], t: &[u8; TABLE], x: u8, n: usize)
    requires { (n < 8) × (length q.old ≡ parity) }
    ensures { q.new ≡ byte_by t.now n x q.old }
{
    let v = usize::from(x);
    let a = n * POWER + v % 16 * PARITY;
    let b = n * POWER + HALF + v / 16 * PARITY;
    for j in 0..PARITY {
        q[j] = field::sum(q[j], field::sum(t[a + j], t[b + j]));
    }
}

// The register takes in the eight bytes of d from at on.
fn eight(t: &[u8; TABLE], p: [u8; PARITY], d: &[u8; LAID], at: usize) -> [u8; PARITY]
    requires { at + 8 ≤ most_k + 1 }
    ensures { result ≡ eight_by t.now p d.now at }
{
    let mut q = shifted(p, 8);
    for n in 0..8 {
        byte_in(&mut q, t, field::sum(p[7 - n], d[at + (7 - n)]), n);
    }
    q
}

// The register after the 208 bytes of d.
fn register(t: &[u8; TABLE], d: &[u8; LAID]) -> [u8; PARITY]
    ensures { result ≡ register_by t.now d.now ((most_k + 1) / 8) }
{
    let mut p = [0u8; PARITY];
    for i in 0..STEPS {
        // Named first: no proof is made for an array that a call lays straight into a variable.
        let next = eight(t, p, d, i * 8);
        p = next;
    }
    p
}

// What the register makes of the data bytes with the table t: their parity, where the table is made.
// A slice and its bound, and no struct of both: a proof learns that the items of a slice are bytes where the slice itself is an argument.
pub fn parity_of(t: &[u8; TABLE], d: &[u8]) -> [u8; PARITY]
    requires { length d.now ≤ most_k }
    ensures { result ≡ parity_by t.now d.now }
{
    // The data bytes in 208 places.
    let mut w = [0u8; LAID];
    w[1..d.len() + 1].copy_from_slice(d);
    register(t, &w)
}

// The parity p and that which stands in the chunk c, added: zeros where they are the same.
fn summed(p: [u8; PARITY], c: &[u8], k: usize) -> [u8; PARITY]
    requires { (k ≤ most_k) × (length c.now ≡ k + parity) }
    ensures { result ≡ sum_of p (drop k c.now) }
{
    let mut q = p;
    for j in 0..PARITY {
        q[j] = field::sum(p[j], c[k + j]);
    }
    q
}

// What the chunk c of k data bytes leaves when it is divided by the generator, with a table that `make_table` made: zeros where it is a word
// of the code. 255 in every place, and so no word, where k is over 207, or c has not k bytes and their parity.
pub fn remainder_of(t: &[u8; TABLE], k: usize, c: &[u8]) -> [u8; PARITY]
    ensures { result ≡ remainder_by t.now k c.now }
{
    if MOST_K < k || c.len() != k + PARITY {
        return [255u8; PARITY];
    }
    let p = parity_of(t, &c[..k]);
    summed(p, c, k)
}
