// Reading a header: the checks 2 to 8 of document 01, in their order.
ghost use Rattle.std.specs.Prelude.{◌≡◌, cond, false, ◌||◌, ◌*◌, ◌≤◌, leb, length, get_or};
ghost use Rattle.base_rules.specs.Bounds.{place};
ghost use Rattle.base_rules.specs.Refusal.{fault_in};
ghost use Rattle.header_rules.specs.Read.{has_fec, has_address, address_at, address_of, fields_of, body_length, length_of, is_short, bad_crc, bad_length};
ghost use Rattle.header_rules.specs.Read.{bad_address, bad_index, bad_size, fault_of, parsed_of, number_of, parse_call};
ghost use Rattle.weave_rules.specs.Calls.{bad_count, bad_chunk};

use crate::{ADDR_BIT, FEC_BIT, Header, SYNC};
use base::{MOST_F, PARITY, PLACE, Refusal};
use cut::{Address, LEAST_H};

// Whether the flags call for RSk and RSz.
fn has_fec(s: &[u8]) -> bool
    ensures { result ≡ has_fec s.now }
{
    FEC_BIT <= base::read2(s, 10)
}

// Whether they call for an address.
fn has_address(s: &[u8]) -> bool
    ensures { result ≡ has_address s.now }
{
    ADDR_BIT <= base::read2(s, 10) % FEC_BIT
}

// Where the address stands, or would.
fn address_at(s: &[u8]) -> usize
    ensures { (result ≡ address_at s.now) × (12 ≤ result) × (result ≤ 14) }
{
    if has_fec(s) { 14 } else { 12 }
}

// The address, or none.
fn address_of(s: &[u8]) -> Option<Address>
    ensures { result ≡ address_of s.now }
{
    if has_address(s) {
        let at = address_at(s);
        Some(Address {
            source: base::read2(s, at),
            dest: base::read2(s, at + 2),
        })
    } else {
        None
    }
}

// The header's bytes before HCRC.
fn body_length(s: &[u8]) -> usize
    ensures { (result ≡ body_length s.now) × (12 ≤ result) × (result ≤ 18) }
{
    let at = address_at(s);
    if has_address(s) { at + 4 } else { at }
}

// RSk or RSz: a byte that only a header with FEC has, else 0.
fn rs_byte(s: &[u8], fec: bool, i: usize) -> u8
    ensures { result ≡ cond fec (get_or s.now i 0) 0 }
{
    if fec { base::byte_at(s, i) } else { 0 }
}

// The fields.
fn fields_of(s: &[u8]) -> Header
    ensures { result ≡ fields_of s.now }
{
    let fec = has_fec(s);
    Header {
        number: base::read2(s, 2),
        index: base::read3(s, 4),
        count: base::read3(s, 7),
        fec,
        rsk: rs_byte(s, fec, 12),
        rsz: rs_byte(s, fec, 13),
        address: address_of(s),
        plen: base::read2(s, 10) % ADDR_BIT,
    }
}

// 2: whether there are fewer bytes than a header has.
fn is_short(s: &[u8]) -> bool
    ensures { result ≡ is_short s.now }
{
    s.len() < LEAST_H || s.len() < body_length(s) + 2
}

// 4: whether HCRC is not the CRC of the bytes before it.
fn bad_crc(s: &[u8]) -> bool
    requires { length_of s.now ≤ length s.now }
    ensures { result ≡ bad_crc s.now }
{
    let n = body_length(s);
    base::read2(s, n) != crc::word(&s[..n])
}

// 5: whether the payload is none, or not Plen bytes.
fn bad_length(s: &[u8], h: Header) -> bool
    ensures { result ≡ bad_length s.now h }
{
    h.plen == 0 || s.len() != body_length(s) + 2 + h.plen as usize
}

// 6: whether the configured address is not that of a fragment that carries one.
fn bad_address(own: Option<Address>, a: Option<Address>) -> bool
    ensures { result ≡ bad_address own a }
{
    a.is_some() && own != a
}

// Whether it is no count of fragments.
fn bad_count(count: usize) -> bool
    ensures { result ≡ bad_count count }
{
    count == 0 || MOST_F < count
}

// 7: whether Fcount is no count, or Findex is not below it.
fn bad_index(h: Header) -> bool
    ensures { result ≡ bad_index h }
{
    bad_count(h.count as usize) || h.count <= h.index
}

// Of 8: whether k and z are no chunk's, or the f s cells hold none.
fn bad_chunk(f: usize, s: usize, k: usize, z: usize) -> bool
    requires { f * s ≤ place }
    ensures { result ≡ (bad_chunk f s k || leb k z) }
{
    base::bad_k(k) || f * s < k + PARITY || k <= z
}

// 8: whether the sizes cannot be.
fn bad_size(h: Header) -> bool
    requires { bad_count h.count ≡ false }
    ensures { result ≡ bad_size h }
{
    let f = h.count as usize;
    let s = h.plen as usize;
    PLACE < f * s || (h.fec && bad_chunk(f, s, h.rsk as usize, h.rsz as usize))
}

// The checks 2 to 8 in order: the first that fails refuses.
fn fault(own: Option<Address>, s: &[u8]) -> Result<(), Refusal>
    ensures { fault_in result ≡ fault_of own s.now }
{
    if is_short(s) {
        return Err(Refusal::Short);
    }
    if base::read2(s, 0) != SYNC {
        return Err(Refusal::Sync);
    }
    if bad_crc(s) {
        return Err(Refusal::Hcrc);
    }
    let h = fields_of(s);
    if bad_length(s, h) {
        return Err(Refusal::Length);
    }
    let address = h.address;
    if bad_address(own, address) {
        return Err(Refusal::Address);
    }
    if bad_index(h) {
        return Err(Refusal::Count);
    }
    if bad_size(h) {
        return Err(Refusal::Size);
    }
    Ok(())
}

// Reads the header of a datagram, for a receiver with this address or none.
pub fn parse(own: Option<Address>, s: &[u8]) -> Result<Header, Refusal>
    ensures { (result ≡ parsed_of own s.now) × (number_of result ≡ parse_call own s.now) }
{
    fault(own, s)?;
    Ok(fields_of(s))
}
