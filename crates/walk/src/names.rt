// The list of container names: four bytes each, one behind the other.
ghost use Rattle.std.specs.Prelude.{◌≡◌};
ghost use Rattle.base_rules.specs.Refusal.{fault_in};
ghost use Rattle.base_rules.specs.Tests.{among};
ghost use Rattle.walk_rules.specs.Names.{names_of, names_fault};

use base::Refusal;

// Container names at most, and the bytes of one.
const MOST_NAMES: usize = 8;

const NAME_BYTES: usize = 4;

// Refuses a list of too many names, and one that does not end with a whole name.
pub fn fault(names: &[u8]) -> Result<(), Refusal>
    ensures { fault_in result ≡ names_fault names.now }
{
    if NAME_BYTES * MOST_NAMES < names.len() || names.len() % NAME_BYTES != 0 {
        return Err(Refusal::Bits);
    }
    Ok(())
}

// Whether a name is a container's.
pub fn is_container(names: &[u8], name: u32) -> bool
    ensures { result ≡ among name (names_of names.now) }
{
    let n = names.len() / NAME_BYTES;
    for j in 0..n {
        if base::read4(names, NAME_BYTES * j) == name {
            return true;
        }
    }
    false
}
