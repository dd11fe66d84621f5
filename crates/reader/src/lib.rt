// A reader over one TAG packet, as a struct. Each of these is thin: the work is done by calls on the slice and the numbers, and `first`, `step_at` and
// `place_after` are for callers that hold no such struct.
#![tactic(auto)]

ghost use Rattle.std.specs.Prelude.{◌≡◌};
ghost use Rattle.tag_rules.specs.Find.{check_of};
ghost use Rattle.tag_rules.specs.Calls.{read_of, read_number, read_call, first_call, after_of};
ghost use Rattle.reader.specs.Steps.{opened_on, step_of, told_by, moved_of};

use item::{Repeats, Step};

// The packet, where the reader stands in it, and the number with which opening refused it, 0 for none: any number, since a caller may make a reader, and
// a step shows it as it is.
#[derive(Clone, Copy)]
pub struct Reader<'a> {
    pub packet: &'a [u8],
    pub at: usize,
    pub refusal: u8,
}

// What a reader keeps of its opening.
fn refusal_of(packet: &[u8], repeats: Repeats) -> u8
    ensures { result ≡ check_of repeats packet.now }
{
    match tag::open_reader(packet, repeats) {
        Ok(_) => 0,
        Err(e) => u8::from(e),
    }
}

// Opens a reader: the whole packet is checked before the first item is handed out.
pub fn open<'a>(packet: &'a [u8], repeats: Repeats) -> Reader<'a>
    ensures { result ≡ opened_on repeats packet.entry }
{
    Reader {
        packet,
        at: 0,
        refusal: refusal_of(packet, repeats),
    }
}

// What the reader hands out where it stands: an item, the end with the count of padding bytes, or the refusal.
pub fn step<'a>(r: Reader<'a>) -> Result<Step, u8>
    ensures { (result ≡ step_of r.entry) × (read_number result ≡ told_by r.entry) }
{
    tag::read_at(r.packet, r.at, r.refusal)
}

// The reader behind what it handed out; at the end, or refused, it stays.
pub fn moved<'a>(r: Reader<'a>) -> Reader<'a>
    ensures { result ≡ moved_of r.entry }
{
    Reader {
        packet: r.packet,
        at: tag::read_after(r.packet, r.at, r.refusal),
        refusal: r.refusal,
    }
}

// What a reader just opened on the packet hands out.
pub fn first(packet: &[u8], repeats: Repeats) -> Result<Step, u8>
    ensures { (result ≡ read_of packet.now 0 (check_of repeats packet.now))
        × (read_number result ≡ first_call repeats packet.now) }
{
    step(open(packet, repeats))
}

// What a reader that stands at `at` hands out, for callers that hold no reader.
pub fn step_at(packet: &[u8], at: usize, refusal: u8) -> Result<Step, u8>
    ensures { (result ≡ read_of packet.now at refusal) × (read_number result ≡ read_call packet.now at refusal) }
{
    step(Reader {
        packet,
        at,
        refusal,
    })
}

// Where that reader stands then.
pub fn place_after(packet: &[u8], at: usize, refusal: u8) -> usize
    ensures { result ≡ after_of packet.now at refusal }
{
    let r = moved(Reader {
        packet,
        at,
        refusal,
    });
    r.at
}
