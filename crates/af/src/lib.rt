// AF packets (clause 6): wrapping a payload, checking a packet, and the payload of a packet.
#![tactic(auto)]

mod checking;
mod wrapping;

ghost use Rattle.std.specs.Prelude.{◌≡◌};
ghost use Rattle.af_rules.specs.Packet.{payload_of, payload_place, crc_for};

pub use af_rules::Figures;
use base::LEAST_L;
pub use checking::check;
pub use wrapping::{MOST_PAYLOAD, wrap};

// The bytes before the payload, and those of the CRC behind it.
const HEADER: usize = 10;

const CRC: usize = 2;

// "AF", 4146 hex.
const SYNC: u16 = 16710;
// PT is "T".
const PT: u8 = b'T';
// The major revision that is written and read.
const MAJOR: u8 = 1;

// The CRC field of a packet with these bytes in front of it: their CRC where CF is set, else 0000.
fn crc_for(cf: bool, covered: &[u8]) -> u16
    ensures { result ≡ crc_for cf covered.now }
{
    if cf { crc::word(covered) } else { 0 }
}

// The bytes of the packet between header and CRC, checked or not; none where it is shorter than both.
pub fn payload(packet: &[u8]) -> &[u8]
    ensures { (result.now ≡ payload_of packet.now) × (result.ref_ptr ≡ payload_place packet.entry) }
{
    if packet.len() < LEAST_L {
        return &packet[..0];
    }
    let end = packet.len() - CRC;
    &packet[HEADER..end]
}
