// The bandwidth that "rbw_" sends, read as a float and written back, and the widest and narrowest so far (document 02, Item 10). It stands on the
// TAG layer alone.
#![tactic(auto)]

ghost use Rattle.std.specs.Prelude.{◌≡◌};
ghost use Rattle.base_rules.specs.Answer.{outcome};
ghost use Rattle.base_rules.specs.Written.{number_of};
ghost use Rattle.bandwidth_rules.specs.Read.{held_in, bandwidth_of, bandwidth_number, bandwidth_call};
ghost use Rattle.bandwidth_rules.specs.Write.{width_call, none_call};
ghost use Rattle.bandwidth_rules.specs.Seen.{seen_of};

pub use bandwidth_rules::{Watched, Widths};
use base::Refusal;
use item::{Bits, Repeats};
use tag::Located;

// "rbw_", and the bits of its value.
const RBW: u32 = 0x7262775F;

const RBW_BITS: u32 = 16;

// What an item of so many bits with that value says.
fn held_in(bits: Bits, value: &[u8]) -> Result<Option<f32>, Refusal>
    ensures { result ≡ held_in bits.0 value.now }
{
    if bits.0 == RBW_BITS {
        let n = base::read2(value, 0);
        return Ok(Some(widths::figure(n)));
    }
    if bits.0 == 0 {
        Ok(None)
    } else {
        Err(Refusal::Width)
    }
}

// The bandwidth, as the first "rbw_" has it in the packet, or else in the standing packet; an empty standing packet is none. Refused with the TAG
// layer's numbers as every finding is, and then with 60 where the item has neither 16 bits nor 0.
pub fn read(packet: &[u8], standing: &[u8], repeats: Repeats) -> Result<Option<f32>, Refusal>
    ensures { (result ≡ bandwidth_of repeats packet.now standing.now)
        × (bandwidth_number result ≡ bandwidth_call repeats packet.now standing.now) }
{
    match tag::locate(packet, standing, repeats, RBW)? {
        Located::Packet(i) => held_in(i.bits, tag::value(packet, i)),
        Located::Standing(i) => held_in(i.bits, tag::value(standing, i)),
    }
}

// Writes the item of a figure into the first ten bytes. Refused with 61 where x is no multiple of 1/256 from 0 to 255 + 255/256, or is minus zero; then
// with 1 where there is no room.
pub fn write_width(x: f32, out: &mut [u8]) -> Result<(), Refusal>
    ensures { outcome (number_of result) out.new ≡ width_call x out.old }
{
    match widths::whole_of(x) {
        Some(n) => {
            let value = base::bytes2(n);
            write::write(RBW, Bits(RBW_BITS), &value, out)
        }
        None => Err(Refusal::Figure),
    }
}

// Writes the item of no figure, of 0 bits, into the first eight bytes, or is refused with 1 where there is no room.
pub fn write_none(out: &mut [u8]) -> Result<(), Refusal>
    ensures { outcome (number_of result) out.new ≡ none_call out.old }
{
    let value = [0u8; 0];
    write::write(RBW, Bits(0), &value, out)
}

// Reads a packet, and the figures so far with it.
pub fn watch(widths: Widths, packet: &[u8], standing: &[u8], repeats: Repeats) -> Watched
    ensures { (result.answer ≡ bandwidth_of repeats packet.now standing.now)
        × (bandwidth_number result.answer ≡ bandwidth_call repeats packet.now standing.now)
        × (result.widths ≡ seen_of widths (bandwidth_of repeats packet.now standing.now)) }
{
    let answer = read(packet, standing, repeats);
    Watched {
        answer,
        widths: widths::seen(widths, answer),
    }
}
