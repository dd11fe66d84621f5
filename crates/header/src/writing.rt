// Writing a header. Each part is put where the longest header has room, so that no answer is read there.
ghost use Rattle.std.specs.Prelude.{◌≡◌, ◌+◌, ◌≤◌, length, take};
ghost use Rattle.base_rules.specs.Answer.{outcome};
ghost use Rattle.base_rules.specs.Bytes.{splice, bytes_of};
ghost use Rattle.base_rules.specs.Written.{number_of};
ghost use Rattle.crc_rules.specs.Crc.{word_of};
ghost use Rattle.header_rules.specs.Header.{addr_flag, flags_of, fec_part, address_part, front_of, write_call};

use crate::{ADDR_BIT, FEC_BIT, Header, SYNC};
use base::Refusal;
use cut::{Address, MOST_H};

fn addr_flag(a: Option<Address>) -> u16
    ensures { (result ≡ addr_flag a) × (result ≤ 16384) }
{
    match a {
        None => 0,
        Some(_) => ADDR_BIT,
    }
}

// The two flags and Plen.
fn flags(h: Header) -> u16
    ensures { result ≡ flags_of h }
{
    let address = h.address;
    let low = addr_flag(address) + h.plen % ADDR_BIT;
    if h.fec { FEC_BIT + low } else { low }
}

// "PF", Pseq, Findex, Fcount, the flags with Plen: 12 bytes.
fn put_front(head: &mut [u8; MOST_H], h: Header)
    ensures { head.new ≡ splice head.old 0 (front_of h) }
{
    let _ = base::put(head, 0, &base::bytes2(SYNC));
    let _ = base::put(head, 2, &base::bytes2(h.number));
    let _ = base::put(head, 4, &base::bytes3(h.index));
    let _ = base::put(head, 7, &base::bytes3(h.count));
    let _ = base::put(head, 10, &base::bytes2(flags(h)));
}

// RSk and RSz, where there is FEC; the answer is the place behind them.
fn put_fec(head: &mut [u8; MOST_H], at: usize, h: Header) -> usize
    requires { at ≤ 12 }
    ensures { (result ≡ at + length (fec_part h)) × (head.new ≡ splice head.old at (fec_part h)) }
{
    if h.fec {
        let _ = base::put(head, at, &[h.rsk, h.rsz]);
        return at + 2;
    }
    at
}

// The address, where there is one; the answer is the place behind it.
fn put_address(head: &mut [u8; MOST_H], at: usize, a: Option<Address>) -> usize
    requires { at ≤ 14 }
    ensures { (result ≡ at + length (address_part a)) × (head.new ≡ splice head.old at (address_part a)) }
{
    match a {
        None => at,
        Some(pair) => {
            let _ = base::put(head, at, &base::bytes2(pair.source));
            let _ = base::put(head, at + 2, &base::bytes2(pair.dest));
            at + 4
        }
    }
}

// HCRC over the bytes before `at`.
fn put_crc(head: &mut [u8; MOST_H], at: usize)
    requires { at ≤ 18 }
    ensures { head.new ≡ splice head.old at (bytes_of 2 (word_of (take at head.old))) }
{
    let word = crc::word(&head[..at]);
    let _ = base::put(head, at, &base::bytes2(word));
}

// Writes a header at the front of out; 1 ROOM where it does not fit, and then out stays as it is.
pub fn write_header(h: Header, out: &mut [u8]) -> Result<(), Refusal>
    ensures { outcome (number_of result) out.new ≡ write_call h out.old }
{
    let mut head = [0u8; MOST_H];
    put_front(&mut head, h);
    let a = put_fec(&mut head, 12, h);
    let address = h.address;
    let b = put_address(&mut head, a, address);
    put_crc(&mut head, b);
    base::put(out, 0, &head[..b + 2])
}
