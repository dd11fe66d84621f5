// The senders' two calls.
ghost use Rattle.std.specs.Prelude.{◌≡◌};
ghost use Rattle.base_rules.specs.Answer.{outcome};
ghost use Rattle.sender_rules.specs.Calls.{fragment_call, sent_number, fragments_call, all_number};

use crate::Split;
use crate::parts::Sending;
use base::Refusal;
use cut::Settings;

// Writes one fragment of a packet at the front of out: 40, 20 to 25, 41, 42, 1 where that cannot be, and then out stays as it is.
pub fn fragment(
    g: Settings,
    number: u16,
    packet: &[u8],
    index: usize,
    out: &mut [u8],
) -> Result<usize, Refusal>
    ensures { outcome (sent_number result) out.new ≡ fragment_call g number packet.now index out.old }
{
    Sending::of(g, number, packet)?.write_one(index, out)
}

// Writes all fragments of a packet, one behind the other, at the front of out; the encoder is called once.
pub fn fragments(g: Settings, number: u16, packet: &[u8], out: &mut [u8]) -> Result<Split, Refusal>
    ensures { outcome (all_number result) out.new ≡ fragments_call g number packet.now out.old }
{
    Sending::of(g, number, packet)?.write_all(out)
}
