// The missing bytes from the syndromes.
ghost use Rattle.std.specs.Prelude.{◌≡◌, ◌<◌, length};
ghost use Rattle.base_rules.specs.Bounds.{parity};
ghost use Rattle.codeword.specs.Code.{plus};
ghost use Rattle.code_rules.specs.inner.Patterns.{row_of};
ghost use Rattle.code_rules.specs.inner.Solving.{solved_by};

use crate::patterns::COLUMNS;
use base::PARITY;
use code_lanes::{MULTIPLES, lanes, product};

// y + x times row m of q. The doubles of x are made once, ahead of the loop.
fn add_row(y: &mut [u8; PARITY], x: u8, q: &[u8; COLUMNS], m: usize)
    requires { (m < parity) × (length y.old ≡ parity) }
    ensures { y.new ≡ plus x (row_of q.now m) y.old }
{
    let at = m * PARITY;
    for j in 0..PARITY {
        y[j] = field::sum(y[j], product(q[at + j], x));
    }
}

// The missing bytes from the syndromes s, of at most 48 missing places.
pub fn solve(q: &[u8; COLUMNS], sc: &[u8; MULTIPLES], e: usize, s: [u8; PARITY]) -> [u8; PARITY]
    ensures { result ≡ solved_by q.now sc.now e s }
{
    let n = e.min(PARITY);
    let mut y = [0u8; PARITY];
    for i in 0..n {
        add_row(&mut y, s[i], q, n - 1 - i);
    }
    lanes(sc, y, [0u8; PARITY])
}
