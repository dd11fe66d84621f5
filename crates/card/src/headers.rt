// The header of a datagram for C, read before the datagram is handed on to be received.
ghost use Rattle.std.specs.Prelude.{◌≡◌};
ghost use Rattle.card_rules.specs.Calls.{address_of};
ghost use Rattle.card_rules.specs.Headers.{address_told, header_told, header_widths, parse_for};
ghost use Rattle.card_rules.specs.Told.{CardTold};

use crate::address_of;
use crate::telling::{Tells, tell_answer};
use cut::Address;
use header::Header;

// The bytes that parsing tells, and their widths; card_rules/specs/Headers.antt says of what.
const TOLD_PARSE: usize = 17;

const HEADER_WIDTHS: [usize; 11] = [2, 2, 2, 1, 1, 1, 1, 2, 2, 2, 1];

// What is told of an address.
fn address_values(a: Option<Address>) -> [usize; 3]
    ensures { result ≡ address_told a }
{
    match a {
        None => [0, 0, 0],
        Some(a) => [1, a.source as usize, a.dest as usize],
    }
}

// What is told of a header.
impl Tells<11> for Header {
    ghost values = { header_told };

    fn figures(self) -> [usize; 11] {
        let a = address_values(self.address);
        [
            self.number as usize,
            self.index as usize,
            self.count as usize,
            usize::from(self.fec),
            self.rsk as usize,
            self.rsz as usize,
            a[0],
            a[1],
            a[2],
            self.plen as usize,
            cut::header_length(self.fec, self.address),
        ]
    }
}

// Reads the header of a datagram, tells its fields and where the payload begins, and gives 0; else the number of the refusal.
pub fn bailhammer_parse(
    addressed: usize,
    source: u16,
    dest: u16,
    datagram: &[u8],
    told: &mut [u8],
) -> usize
    ensures { CardTold header_widths (parse_for (address_of addressed source dest) datagram.now) told.old
        told.new result }
{
    let own = address_of(addressed, source, dest);
    tell_answer(
        header::parse(own, datagram),
        told,
        TOLD_PARSE,
        &HEADER_WIDTHS,
    )
}
