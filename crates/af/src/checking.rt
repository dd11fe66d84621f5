// Checking a packet: document 01's AF checks, 20 to 25.
ghost use Rattle.std.specs.Prelude.{◌≡◌, ◌≤◌, length};
ghost use Rattle.base_rules.specs.Bounds.{least_l};
ghost use Rattle.base_rules.specs.Refusal.{fault_in};
ghost use Rattle.af_rules.specs.Packet.{ar_of, cf_of};
ghost use Rattle.af_rules.specs.Calls.{bad_length, bad_crc, af_fault, check_call, number_of};

use crate::{CRC, Figures, MAJOR, PT, SYNC, crc_for};
use base::{LEAST_L, MOST_L, Refusal};

// Where the fields stand that follow "AF".
const LEN_AT: usize = 2;

const SEQ_AT: usize = 6;

const AR_AT: usize = 8;

const PT_AT: usize = 9;

// AR of a packet.
fn ar_of(packet: &[u8]) -> u8
    ensures { result ≡ ar_of packet.now }
{
    base::byte_at(packet, AR_AT)
}

// CF of a packet, the top bit of AR.
fn cf_of(packet: &[u8]) -> bool
    ensures { result ≡ cf_of packet.now }
{
    ar_of(packet) / 128 == 1
}

// Whether the packet is not as long as LEN says, or longer than a packet may be.
fn bad_length(packet: &[u8]) -> bool
    ensures { result ≡ bad_length packet.now }
{
    packet.len() != base::read4(packet, LEN_AT) as usize + LEAST_L || MOST_L < packet.len()
}

// Whether the CRC field of the packet is not the one that is due.
fn bad_crc(packet: &[u8]) -> bool
    requires { least_l ≤ length packet.now }
    ensures { result ≡ bad_crc packet.now }
{
    let end = packet.len() - CRC;
    base::read2(packet, end) != crc_for(cf_of(packet), &packet[..end])
}

// The AF checks in order: the first that fails refuses.
fn fault(packet: &[u8]) -> Result<(), Refusal>
    ensures { fault_in result ≡ af_fault packet.now }
{
    if packet.len() < LEAST_L {
        return Err(Refusal::AfShort);
    }
    if base::read2(packet, 0) != SYNC {
        return Err(Refusal::AfSync);
    }
    if bad_length(packet) {
        return Err(Refusal::AfLength);
    }
    if ar_of(packet) / 16 % 8 != MAJOR {
        return Err(Refusal::AfMajor);
    }
    if base::byte_at(packet, PT_AT) != PT {
        return Err(Refusal::AfType);
    }
    if bad_crc(packet) {
        return Err(Refusal::AfCrc);
    }
    Ok(())
}

// Checks a packet: SEQ, CF, the minor revision and LEN, or 20 to 25, the first that is due.
pub fn check(packet: &[u8]) -> Result<Figures, Refusal>
    ensures { number_of result ≡ check_call packet.now }
{
    fault(packet)?;
    Ok(Figures {
        seq: base::read2(packet, SEQ_AT),
        cf: cf_of(packet),
        minor: ar_of(packet) % 16,
        len: base::read4(packet, LEN_AT),
    })
}
