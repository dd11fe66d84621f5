// What a record is refused for, and a fragment by the place that holds its number.
ghost use Rattle.std.specs.Prelude.{◌≡◌, false, get_or};
ghost use Rattle.base_rules.specs.Refusal.{fault_in};
ghost use Rattle.places_rules.specs.Faults.{bad_figures, bad_code, bad_place, bad_table, bad_size_in, mismatch as mismatch_of, place_fault};

use crate::record::is_last;
use crate::{DELIVERED, FOUR, Place, SPOILED, Table};
use base::{MOST_F, PLACE, Refusal};
use header::Header;

// Whether the figures of a place leave it room for its fragments.
fn bad_figures(p: Place) -> bool
    ensures { result ≡ bad_figures p }
{
    let count = p.count as usize;
    let size = p.size as usize;
    let last = p.last as usize;
    MOST_F < count || PLACE < count * size || PLACE < last || (size != 0 && size < last)
}

// Whether k and z, with FEC, are no chunk's.
fn bad_code(p: Place) -> bool
    ensures { result ≡ bad_code p }
{
    p.fec && (base::bad_k(p.rsk as usize) || p.rsk <= p.rsz)
}

// Whether a field of a place is outside its range.
pub fn bad_place(p: Place) -> bool
    ensures { result ≡ bad_place p }
{
    SPOILED < p.condition || bad_figures(p) || bad_code(p)
}

// Whether a field of the record is outside its range.
pub fn bad_table(t: Table) -> bool
    ensures { result ≡ bad_table t }
{
    FOUR <= t.oldest as usize || t.places.iter().any(|p| bad_place(*p))
}

// Whether a fragment's size cannot belong to the place.
fn bad_size_in(p: Place, h: Header) -> bool
    ensures { result ≡ bad_size_in p h }
{
    if h.fec {
        return p.size != h.plen;
    }
    if is_last(h) {
        return p.size != 0 && p.size < h.plen;
    }
    (p.size != 0 && p.size != h.plen) || h.plen < p.last
}

// Whether a fragment is of another cut than the place's.
fn mismatch(p: Place, h: Header) -> bool
    ensures { result ≡ mismatch_of p h }
{
    p.count != h.count || p.fec != h.fec || p.rsk != h.rsk || p.rsz != h.rsz || bad_size_in(p, h)
}

// Whether fragment i is kept; past the bound none is.
fn is_kept(p: Place, i: usize) -> bool
    ensures { result ≡ get_or p.kept i false }
{
    i < MOST_F && p.kept[i]
}

// 9 to 12, the first that is due for a fragment whose number the place holds.
pub fn place_fault(p: Place, h: Header) -> Result<(), Refusal>
    ensures { fault_in result ≡ place_fault p h }
{
    if mismatch(p, h) {
        return Err(Refusal::Mismatch);
    }
    if p.condition == SPOILED {
        return Err(Refusal::Spoiled);
    }
    if p.condition == DELIVERED {
        return Err(Refusal::Late);
    }
    if is_kept(p, h.index as usize) {
        return Err(Refusal::Repeat);
    }
    Ok(())
}
