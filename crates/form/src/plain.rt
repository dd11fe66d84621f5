// Without FEC: the fragments, one behind the other.
ghost use Rattle.std.specs.Prelude.{◌≡◌, false, ◌+◌, ◌-◌, ◌*◌, ◌≤◌, length};
ghost use Rattle.base_rules.specs.Bounds.{place};
ghost use Rattle.base_rules.specs.Bytes.{splice};
ghost use Rattle.places_rules.specs.Faults.{bad_place};
ghost use Rattle.form_rules.specs.Agree.{joined};

use base::PLACE;
use places::Place;

// The bytes of the fragments before the last: they and the last one fit a place.
fn before_last(p: Place) -> usize
    requires { bad_place p ≡ false }
    ensures { (result ≡ (p.count - 1) * p.size) × (result + p.last ≤ place) }
{
    let count = p.count as usize;
    if count == 0 {
        return 0;
    }
    (count - 1) * p.size as usize
}

// Joins the fragments at the front of a buffer; the answer is how many bytes they are.
pub fn join(p: Place, held: &[u8], buffer: &mut [u8]) -> usize
    requires { (bad_place p ≡ false) × (place ≤ length held.now) × (length buffer.old ≡ place) }
    ensures { (result ≡ length (joined p held.now))
        × (buffer.new ≡ splice buffer.old 0 (joined p held.now)) }
{
    let front = before_last(p);
    let last = p.last as usize;
    let _ = base::put(buffer, 0, &held[..front]);
    let _ = base::put(buffer, front, &held[PLACE - last..PLACE]);
    front + last
}
