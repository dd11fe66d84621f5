// All that depends on the missing places alone: for each of them the polynomial whose roots are the others.
ghost use Rattle.std.specs.Prelude.{◌≡◌, [], ◌∷◌, ℕ, ◌+◌, ◌≤◌, ◌<◌, length, take, get_or};
ghost use Rattle.base_rules.specs.Bounds.{parity};
ghost use Rattle.code_rules.specs.inner.Kernel.{Doubles};
ghost use Rattle.code_rules.specs.inner.Patterns.{root_step, locator_of, Same, Put, Columns, scales_of, inverses_of};
ghost use Rattle.code_rules.specs.inner.Solving.{PatternMade};

use base::PARITY;
use code_lanes::{MULTIPLES, lanes, multiples, product, times_lanes};

// The coefficients of a polynomial with a root for each missing place.
const COEFFICIENTS: usize = PARITY + 1;

// A row of lanes for each coefficient but the last.
pub const COLUMNS: usize = PARITY * PARITY;

// p times z + x, from the highest coefficient down. The doubles of x are made once, ahead of the loop.
fn times_root(p: [u8; COEFFICIENTS], x: u8) -> [u8; COEFFICIENTS]
    ensures { result ≡ root_step p x }
{
    let mut n = p;
    // An index, since p is read at it and one behind it, where n is written.
    for m in 0..PARITY {
        n[m + 1] = field::sum(p[m + 1], product(p[m], x));
    }
    n
}

// The polynomial 1.
fn one() -> [u8; COEFFICIENTS]
    ensures { (length result ≡ parity + 1) × Same result (1 ∷ []) }
{
    let mut p = [0u8; COEFFICIENTS];
    p[0] = 1;
    p
}

// The polynomial whose roots are the first e of x.
fn locator(x: [u8; PARITY], e: usize) -> [u8; COEFFICIENTS]
    requires { e ≤ parity }
    ensures { (length result ≡ parity + 1) × Same result (locator_of (take e x)) }
{
    let mut p = one();
    for i in 0..e {
        // Named first: no proof is made for an array that a call lays straight into a variable.
        let next = times_root(p, x[i]);
        p = next;
    }
    p
}

// Writes row m of q.
fn put_row48(q: &mut [u8; COLUMNS], m: usize, s: [u8; PARITY])
    requires { m < parity }
    ensures { Put q.old m s q.new }
{
    let at = m * PARITY;
    q[at..at + PARITY].copy_from_slice(&s);
}

// The locator polynomial p divided by z + x in each lane, and each quotient's value at its x.
fn columns(
    k: &[u8; MULTIPLES],
    p: [u8; COEFFICIENTS],
    e: usize,
    q: &mut [u8; COLUMNS],
) -> [u8; PARITY]
    requires { (e ≤ parity) × Doubles k.now × ((i : ℕ) → i < parity → get_or k.now i 0 < 256) }
    ensures { Columns k.now p e q.old q.new result }
{
    let mut s = [0u8; PARITY];
    let mut d = [0u8; PARITY];
    for m in 0..e {
        let quotient = lanes(k, s, [p[m]; PARITY]);
        put_row48(q, m, quotient);
        let value = lanes(k, d, quotient);
        s = quotient;
        d = value;
    }
    d
}

// The inverses: x^254 as x^2 x^4 .. x^128.
fn inverses(x: [u8; PARITY]) -> [u8; PARITY]
    ensures { result ≡ inverses_of x }
{
    let mut s = times_lanes(x, x);
    let mut p = s;
    for _ in 0..6usize {
        let square = times_lanes(s, s);
        let longer = times_lanes(p, square);
        s = square;
        p = longer;
    }
    p
}

// The factors of the missing bytes.
fn scales(x: [u8; PARITY], d: [u8; PARITY]) -> [u8; PARITY]
    ensures { result ≡ scales_of x d }
{
    inverses(times_lanes(x, d))
}

// All that depends on the missing places alone: e of them, at most 48, whose locators are the first of x.
pub fn pattern(x: [u8; PARITY], e: usize, q: &mut [u8; COLUMNS]) -> [u8; MULTIPLES]
    ensures { PatternMade x e q.old q.new result }
{
    let n = e.min(PARITY);
    let k = multiples(x);
    let p = locator(x, n);
    let d = columns(&k, p, n, q);
    multiples(scales(x, d))
}
