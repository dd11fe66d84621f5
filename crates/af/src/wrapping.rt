// Wrapping a payload: the header in front, the CRC behind. Each part is put where a `requires` leaves room, so that no answer is read there.
ghost use Rattle.std.specs.Prelude.{◌≡◌, ◌++◌, ◌+◌, ◌≤◌, length, take};
ghost use Rattle.base_rules.specs.Answer.{outcome};
ghost use Rattle.base_rules.specs.Bytes.{splice, bytes_of};
ghost use Rattle.base_rules.specs.Written.{number_of};
ghost use Rattle.af_rules.specs.Packet.{header_bytes, crc_bytes, most_payload, ar_with, header_of, crc_for};
ghost use Rattle.af_rules.specs.Calls.{wrap_call};

use crate::{HEADER, MAJOR, PT, SYNC, crc_for};
use base::{LEAST_L, MOST_L, Refusal};

// The minor revision that is written.
const MINOR: u8 = 0;
// The most bytes of a payload.
pub const MOST_PAYLOAD: usize = MOST_L - LEAST_L;

// AR of the revision that is written.
fn ar_with(cf: bool) -> u8
    ensures { result ≡ ar_with cf }
{
    if cf {
        128 + MAJOR * 16 + MINOR
    } else {
        MAJOR * 16 + MINOR
    }
}

// The header of a payload of len bytes. One array in the order of the bytes: laid part by part, each part would need its place as a number.
fn header(seq: u16, cf: bool, len: u32) -> [u8; HEADER]
    ensures { result ≡ header_of seq cf len }
{
    let s = base::bytes2(SYNC);
    let l = base::bytes4(len);
    let q = base::bytes2(seq);
    [
        s[0],
        s[1],
        l[0],
        l[1],
        l[2],
        l[3],
        q[0],
        q[1],
        ar_with(cf),
        PT,
    ]
}

// Header and payload at the front of out.
fn put_front(seq: u16, cf: bool, payload: &[u8], out: &mut [u8])
    requires { (length payload.now ≤ most_payload) × (header_bytes + length payload.now ≤ length out.old) }
    ensures { out.new ≡ splice out.old 0 (header_of seq cf (length payload.now) ++ payload.now) }
{
    let front = header(seq, cf, payload.len() as u32);
    let _ = base::put(out, 0, &front);
    let _ = base::put(out, HEADER, payload);
}

// The CRC field of the first `end` bytes, behind them.
fn put_crc(cf: bool, end: usize, out: &mut [u8])
    requires { end + crc_bytes ≤ length out.old }
    ensures { out.new ≡ splice out.old end (bytes_of crc_bytes (crc_for cf (take end out.old))) }
{
    let field = base::bytes2(crc_for(cf, &out[..end]));
    let _ = base::put(out, end, &field);
}

// Writes the packet of a payload at the front of out; 22 or 1 where that cannot be, and then out stays as it is.
pub fn wrap(seq: u16, cf: bool, payload: &[u8], out: &mut [u8]) -> Result<(), Refusal>
    ensures { outcome (number_of result) out.new ≡ wrap_call seq cf payload.now out.old }
{
    // A test for each refusal, in the order in which they are due: a function for each, with `?`, would hold the same test.
    if MOST_PAYLOAD < payload.len() {
        return Err(Refusal::AfLength);
    }
    if out.len() < payload.len() + LEAST_L {
        return Err(Refusal::Room);
    }
    put_front(seq, cf, payload, out);
    put_crc(cf, HEADER + payload.len(), out);
    Ok(())
}
