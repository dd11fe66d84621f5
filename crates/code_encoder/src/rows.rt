// The table that the register reads: for each of eight powers of x modulo the generator, its multiples by each half of a byte.
ghost use Rattle.std.specs.Prelude.{◌≡◌, ◌+◌, ◌*◌, ◌≤◌, ◌<◌, length};
ghost use Rattle.base_rules.specs.Bounds.{parity};
ghost use Rattle.codeword.specs.Code.{generator, step};
ghost use Rattle.code_rules.specs.inner.Words.{power_size, table-size};
ghost use Rattle.code_rules.specs.inner.Kernel.{back, power, factor_of, Made, RowOf};

use base::PARITY;
use code_lanes::{added, lanes, multiples};

// The bytes of a power's 32 rows, of half of them, and of the table of eight powers.
pub const POWER: usize = 32 * PARITY;

pub const HALF: usize = 16 * PARITY;

pub const TABLE: usize = 8 * POWER;

// The generator's coefficients below its first, which is 1, from x^47 down.
const GENERATOR: [u8; PARITY] = [
    122, 12, 14, 218, 195, 73, 194, 157, 32, 17, 5, 62, 71, 15, 25, 240, 161, 21, 218, 148, 176,
    109, 183, 149, 166, 245, 218, 251, 151, 150, 170, 195, 151, 160, 12, 130, 219, 117, 244, 10,
    169, 19, 204, 113, 81, 214, 231, 228,
];

// The register moved `by` places to the front, with zeros behind.
pub fn shifted(p: [u8; PARITY], by: usize) -> [u8; PARITY]
    requires { by ≤ parity }
    ensures { result ≡ back by p }
{
    let mut q = [0u8; PARITY];
    for j in 0..PARITY - by {
        q[j] = p[j + by];
    }
    q
}

// The table of the generator's coefficients, which the proof compares with the product of its 48 factors.
fn coefficients() -> [u8; PARITY]
    ensures { result ≡ generator }
{
    GENERATOR
}

// The next power of x modulo the generator g.
fn next_power(b: [u8; PARITY], g: [u8; PARITY]) -> [u8; PARITY]
    requires { g ≡ generator }
    ensures { result ≡ step b 0 }
{
    added(shifted(b, 1), b[0], g)
}

// The half of a byte that row u of a power is for: sixteen low halves and then sixteen high ones.
fn factor(u: usize) -> u8
    requires { u < 32 }
    ensures { result ≡ factor_of u }
{
    if u < 16 {
        (u % 256) as u8
    } else {
        ((u - 16) * 16 % 256) as u8
    }
}

// Writes row r of the table.
fn put_row(t: &mut [u8; TABLE], r: usize, row: [u8; PARITY])
    requires { (r < 256) × Made t.old (r * parity) × RowOf row r }
    ensures { Made t.new (r * parity + parity) }
{
    let at = r * PARITY;
    t[at..at + PARITY].copy_from_slice(&row);
}

// The 32 rows of the power n. All lanes of a row have one factor, so its bits are tested once, and not those of each lane.
fn put_rows(t: &mut [u8; TABLE], n: usize, b: [u8; PARITY])
    requires { (n < 8) × (b ≡ power n) × Made t.old (n * power_size) }
    ensures { Made t.new (n * power_size + power_size) }
{
    let k = multiples(b);
    for u in 0..32 {
        put_row(t, n * 32 + u, lanes(&k, [factor(u); PARITY], [0u8; PARITY]));
    }
}

// Makes the whole table: the rows of the eight powers, each from the power before.
pub fn make_table(t: &mut [u8; TABLE])
    ensures { Made t.new table-size }
{
    let g = coefficients();
    let mut b = g;
    for n in 0..8 {
        put_rows(t, n, b);
        // Named first: no proof is made for an array that a call lays straight into a variable.
        let next = next_power(b, g);
        b = next;
    }
}
