// With FEC: the cells put back in order, the missing ones filled in, and the data of each chunk.
ghost use Rattle.std.specs.Prelude.{◌≡◌, true, false, ◌+◌, ◌*◌, ◌≤◌, length, replicate};
ghost use Rattle.base_rules.specs.Bounds.{place, parity};
ghost use Rattle.base_rules.specs.Bytes.{splice};
ghost use Rattle.places_rules.specs.Faults.{bad_place};
ghost use Rattle.form_rules.specs.Agree.{enough_in};
ghost use Rattle.form_rules.specs.inner.Proposals.{Ready, Proposal, data_of};

use base::{PARITY, PLACE};
use code_decoder::Filled;
use places::Place;
use weave::Held;

// Whether no chunk misses more than 48 bytes; figures that make no chunk miss none.
pub fn suffices(p: Place) -> bool
    requires { (bad_place p ≡ false) × (p.fec ≡ true) }
    ensures { result ≡ enough_in p }
{
    let kept = p.kept;
    match weave::enough(kept, p.count as usize, p.size as usize, p.rsk as usize) {
        Ok(Held::Enough) => true,
        Ok(Held::NotEnough) => false,
        Err(_) => true,
    }
}

// The data bytes of the c chunks in the cells, one behind the other, at the front of a buffer.
fn gather(cells: &[u8], k: usize, c: usize, buffer: &mut [u8])
    requires { (c * (k + parity) ≤ length cells.now) × (c * k ≤ length buffer.old) × (length cells.now ≤ place) }
    ensures { buffer.new ≡ splice buffer.old 0 (data_of cells.now k c) }
{
    for j in 0..c {
        let from = j * (k + PARITY);
        let _ = base::put(buffer, j * k, &cells[from..from + k]);
    }
}

// Whether all bytes are zero.
fn all_zero(s: &[u8]) -> bool
    ensures { (result ≡ true → s.now ≡ replicate (length s.now) 0)
        × (s.now ≡ replicate (length s.now) 0 → result ≡ true) }
{
    s.iter().all(|b| *b == 0)
}

// The one packet that can agree with the kept bytes, at the front of a buffer.
pub fn decode(p: Place, held: &[u8], buffer: &mut [u8]) -> Option<usize>
    requires { Ready p held.now × (p.fec ≡ true) × (length buffer.old ≡ place) }
    ensures { Proposal p held.now buffer.new result × (length buffer.new ≡ place) }
{
    let f = p.count as usize;
    let s = p.size as usize;
    let k = p.rsk as usize;
    let mut cells = [0u8; PLACE];
    let _ = weave::deinterleave(held, f, s, &mut cells);
    let kept = p.kept;
    match code_decoder::fill(kept, f, s, k, &mut cells) {
        Ok(Filled::Done) => {
            let c = f * s / (k + PARITY);
            gather(&cells, k, c, buffer);
            let l = c * k - p.rsz as usize;
            if all_zero(&buffer[l..c * k]) {
                return Some(l);
            }
            None
        }
        Ok(Filled::Nothing) => None,
        Ok(Filled::NotEnough) => None,
        Err(_) => None,
    }
}
