// AF packets and TAG items for C.
ghost use Rattle.std.specs.Prelude.{not, eqb};
ghost use Rattle.af_rules.specs.Calls.{values_of, wrap_call, check_call};
ghost use Rattle.write_rules.specs.Write.{write_call};
ghost use Rattle.card_rules.specs.Told.{CardWritten, CardTold};
ghost use Rattle.card_rules.specs.Packets.{check_widths};

use crate::telling::{Tells, tell_answer};
use crate::written_number;
use af::Figures;
use item::Bits;

// Writes the AF packet of a payload at the front of out, with a CRC where cf is not 0, and gives 0; else the number of the refusal.
pub fn bailhammer_wrap(seq: u16, cf: usize, payload: &[u8], out: &mut [u8]) -> usize
    ensures { CardWritten (wrap_call seq (not (eqb cf 0)) payload.now out.old) out.new result }
{
    let w = af::wrap(seq, cf != 0, payload, out);
    written_number(w)
}

// The bytes that a check tells.
const TOLD_CHECK: usize = 8;

// What is told of a packet that passes.
impl Tells<4> for Figures {
    ghost values = { values_of };

    fn figures(self) -> [usize; 4] {
        [
            self.seq as usize,
            usize::from(self.cf),
            self.minor as usize,
            self.len as usize,
        ]
    }
}

// Checks an AF packet, tells SEQ, CF, the minor revision and LEN, and gives 0; else the number of the refusal.
pub fn bailhammer_check(packet: &[u8], told: &mut [u8]) -> usize
    ensures { CardTold check_widths (check_call packet.now) told.old told.new result }
{
    tell_answer(af::check(packet), told, TOLD_CHECK, &[2, 1, 1, 4])
}

// Writes a TAG item at the front of out, and gives 0; else the number of the refusal.
pub fn bailhammer_item(name: u32, bits: u32, value: &[u8], out: &mut [u8]) -> usize
    ensures { CardWritten (write_call name bits value.now out.old) out.new result }
{
    let w = write::write(name, Bits(bits), value, out);
    written_number(w)
}
