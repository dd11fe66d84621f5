// The values at the 48 roots of the code, in 48 lanes.
ghost use Rattle.std.specs.Prelude.{◌≡◌};
ghost use Rattle.code_rules.specs.inner.Kernel.{Multiples, roots_list};
ghost use Rattle.code_rules.specs.inner.Solving.{syndromes_by};

use base::PARITY;
use code_lanes::{MULTIPLES, lanes, multiples};
use field::twice;

// The roots of the code: the powers of 2 from the first on.
fn roots() -> [u8; PARITY]
    ensures { result ≡ roots_list }
{
    let mut powers = [0u8; PARITY];
    let mut x = 1u8;
    for power in powers.iter_mut() {
        x = twice(x);
        *power = x;
    }
    powers
}

// The multiples of the roots.
pub fn make_roots() -> [u8; MULTIPLES]
    ensures { Multiples roots_list result }
{
    multiples(roots())
}

// The values at the roots, with their multiples in k; with any other rows what the same steps give.
pub fn syndromes_at(k: &[u8; MULTIPLES], r: [u8; PARITY]) -> [u8; PARITY]
    ensures { result ≡ syndromes_by k.now r }
{
    let mut s = [0u8; PARITY];
    for c in r {
        // Named first: no proof is made for an array that a call lays straight into a variable.
        let next = lanes(k, s, [c; PARITY]);
        s = next;
    }
    s
}
