// The receiver for C: the record crosses the boundary as bytes.
ghost use Rattle.std.specs.Prelude.{◌≡◌, ◌≤◌, length};
ghost use Rattle.card_rules.specs.Told.{told_length, CardWritten, CardTold};
ghost use Rattle.card_rules.specs.Calls.{address_of};
ghost use Rattle.card_rules.specs.Receiving.{places_widths, query_for, clear_for, receipt_told, receipt_widths, told_after, CardReceived};
ghost use Rattle.card_rules.specs.inner.Queried.{seen_told, shown_told};
ghost use Rattle.card_rules.specs.inner.Receipt.{received_told};
ghost use Rattle.receiver_rules.specs.Promise.{number_of};

use crate::telling::{Tells, tell_answer};
use crate::{address_of, refused};
use base::Refusal;
use places::{DELIVERED, FREE, OPEN, SPOILED};
use receiver::{Received, Seen, Shown};

// The bytes that an answer tells, and their widths; card_rules/specs/Receiving.antt says of what.
const TOLD_RECEIVE: usize = 8;

const RECEIPT_WIDTHS: [usize; 5] = [1, 2, 2, 1, 2];

// The bytes that a query tells.
const TOLD_QUERY: usize = 12;

// What is told of a datagram that was received.
fn receipt_values(handed: usize, length: usize, missing: usize, d: Option<u16>) -> [usize; 5]
    ensures { result ≡ receipt_told handed length missing d }
{
    match d {
        None => [handed, length, missing, 0, 0],
        Some(n) => [handed, length, missing, 1, n as usize],
    }
}

// That of each answer: a packet is handed out only where it was delivered.
impl Tells<5> for Received {
    ghost values = { received_told };

    fn figures(self) -> [usize; 5] {
        match self {
            Received::Kept(d) => receipt_values(0, 0, 0, d),
            Received::Delivered {
                length,
                missing,
                displaced,
            } => receipt_values(1, length, missing, displaced),
            Received::Damaged(d) => receipt_values(0, 0, 0, d),
        }
    }
}

// Tells an answer, and gives its number: what is damaged is refused, and yet tells what it displaced.
fn tell_receipt(a: Result<Received, Refusal>, told: &mut [u8]) -> usize
    requires { told_length receipt_widths ≤ length told.old }
    ensures { (result ≡ (number_of a).0) × (told.new ≡ told_after a told.old) }
{
    let n = tell_answer(a, told, TOLD_RECEIVE, &RECEIPT_WIDTHS);
    match a {
        Ok(received) => match received {
            Received::Kept(_) => n,
            Received::Delivered { .. } => n,
            Received::Damaged(_) => 13,
        },
        Err(_) => n,
    }
}

// Receives a datagram with the record in its bytes, and gives the number of the answer.
pub fn bailhammer_receive(
    addressed: usize,
    source: u16,
    dest: u16,
    record_bytes: &mut [u8],
    lent: &mut [u8],
    datagram: &[u8],
    told: &mut [u8],
    out: &mut [u8],
) -> usize
    ensures { CardReceived (address_of addressed source dest) datagram.now
        (record { record_bytes = record_bytes.old; lent = lent.old; told = told.old; out = out.old })
        (record { record_bytes = record_bytes.new; lent = lent.new; told = told.new; out = out.new }) result }
{
    // The record, then 14, then 1, as of a query with no bytes lent.
    if told.len() < TOLD_RECEIVE {
        return bailhammer_query(record_bytes, &[], &mut []);
    }
    let unpacked = packed::unpack(record_bytes);
    match unpacked.answer {
        Err(e) => refused(e),
        Ok(()) => {
            let own = address_of(addressed, source, dest);
            let reply = receiver::receive(own, unpacked.table, lent, datagram, out);
            let _ = packed::pack(reply.table, record_bytes);
            tell_receipt(reply.answer, told)
        }
    }
}

// What is told of a place.
fn seen_values(s: Seen) -> [usize; 2]
    ensures { result ≡ seen_told s }
{
    match s {
        Seen::Free => [FREE as usize, 0],
        Seen::Open(n) => [OPEN as usize, n as usize],
        Seen::Delivered(n) => [DELIVERED as usize, n as usize],
        Seen::Spoiled(n) => [SPOILED as usize, n as usize],
    }
}

// That of all four.
impl Tells<8> for Shown {
    ghost values = { shown_told };

    fn figures(self) -> [usize; 8] {
        let a = seen_values(self.first);
        let b = seen_values(self.second);
        let c = seen_values(self.third);
        let d = seen_values(self.fourth);
        [a[0], a[1], b[0], b[1], c[0], c[1], d[0], d[1]]
    }
}

// Shows the four places of the record in its bytes, and gives the number of the answer.
pub fn bailhammer_query(record_bytes: &[u8], lent: &[u8], told: &mut [u8]) -> usize
    ensures { CardTold places_widths (query_for record_bytes.now (length lent.now)) told.old told.new result }
{
    let unpacked = packed::unpack(record_bytes);
    match unpacked.answer {
        Err(e) => refused(e),
        Ok(()) => {
            let shown = receiver::query(unpacked.table, lent);
            tell_answer(shown, told, TOLD_QUERY, &[1, 2, 1, 2, 1, 2, 1, 2])
        }
    }
}

// Empties the four places: a fresh record in the bytes. Gives the number of the answer.
pub fn bailhammer_clear(record_bytes: &mut [u8], lent: &[u8]) -> usize
    ensures { CardWritten (clear_for record_bytes.old (length lent.now)) record_bytes.new result }
{
    let unpacked = packed::unpack(record_bytes);
    match unpacked.answer {
        Err(e) => refused(e),
        Ok(()) => {
            let cleared = receiver::clear(unpacked.table, lent);
            match cleared.answer {
                Err(e) => refused(e),
                Ok(()) => {
                    let _ = packed::pack(cleared.table, record_bytes);
                    0
                }
            }
        }
    }
}
