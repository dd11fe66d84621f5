// The listing of an AF packet: one line on the packet, one on each of its items, one on its padding.
#![tactic(auto)]

ghost use Rattle.std.specs.Prelude.{◌≡◌, ◌++◌};
ghost use Rattle.item_rules.specs.declared.Repeats.TheVariants.{Forbidden};
ghost use Rattle.text_rules.specs.Text.{laid, behind, decimal_of};
ghost use Rattle.walk_rules.specs.Walk.{refusal, walk_of};
ghost use Rattle.walk_rules.specs.Step.{opens};
ghost use Rattle.base_rules.specs.Answer.{outcome};
ghost use Rattle.lister_rules.specs.Listing.{containers, newline, head_line, item_line, lines_of, refused_line, payload_lines, listing_of};
ghost use Rattle.lister_rules.specs.Calls.{number_of, list_call};

use af::{Figures, MOST_PAYLOAD};
use base::{MOST_L, Refusal};
use item::{HEAD, Repeats};
use walk::{Handed, Visit, Walker};

// A buffer as long as this holds every packet and a byte more. So a program may stop reading where it is full: a longer input is listed as
// its first bytes are (`FirstBytes`).
pub const INPUT: usize = MOST_L + 1;

// A buffer as long as this holds every listing (`ListingFits`).
pub const LISTING: usize = MOST_PAYLOAD / HEAD * 17 + 25;

// The only container.
const CONTAINERS: [u8; 4] = *b"fio_";

// A word, a number and the end of the line: laid by `text`, whose writers promise each byte, as far as out goes.
fn number_line(out: &mut [u8], at: usize, word: &[u8], n: usize) -> usize
    ensures { (result ≡ behind out.old at (word.now ++ (decimal_of n ++ newline)))
        × (out.new ≡ laid out.old at (word.now ++ (decimal_of n ++ newline))) }
{
    let mut to = text::plain(out, at, word);
    to = text::decimal(out, to, n);
    text::plain(out, to, b"\n")
}

// The line of a refusal, which stands alone: laid by `text`, so that its bytes are promised.
fn refused_line(out: &mut [u8], n: u8) -> usize
    ensures { (result ≡ behind out.old 0 (refused_line n)) × (out.new ≡ laid out.old 0 (refused_line n)) }
{
    number_line(out, 0, b"refused ", n as usize)
}

// The line on the packet, which is the first: laid by `text`, so that its bytes are promised.
fn head_line(out: &mut [u8], figures: Figures) -> usize
    ensures { (result ≡ behind out.old 0 (head_line figures.seq figures.minor figures.len))
        × (out.new ≡ laid out.old 0 (head_line figures.seq figures.minor figures.len)) }
{
    let mut to = text::plain(out, 0, b"af ");
    to = text::decimal(out, to, figures.seq as usize);
    to = text::plain(out, to, b" 1.");
    to = text::decimal(out, to, figures.minor as usize);
    number_line(out, to, b" ", figures.len as usize)
}

// The line on an item: laid by `text`, so that its bytes are promised.
fn item_line(out: &mut [u8], at: usize, visit: Visit) -> usize
    ensures { (result ≡ behind out.old at (item_line visit.depth visit.item))
        × (out.new ≡ laid out.old at (item_line visit.depth visit.item)) }
{
    let name = base::bytes4(visit.item.name);
    let bits = visit.item.bits.0 as usize;
    let mut to = text::decimal(out, at, visit.depth);
    to = text::plain(out, to, b" ");
    to = text::hex(out, to, &name);
    number_line(out, to, b" ", bits)
}

// The lines on the items of a walk that is not refused, and the one on the padding behind them.
fn item_lines(payload: &[u8], opened: Walker, out: &mut [u8], at: usize) -> usize
    requires { (opened ≡ opens Forbidden payload.now containers) × (refusal (walk_of Forbidden payload.now containers) ≡ 0) }
    ensures { (result ≡ behind out.old at (lines_of (walk_of Forbidden payload.now containers)))
        × (out.new ≡ laid out.old at (lines_of (walk_of Forbidden payload.now containers))) }
{
    let mut w = opened;
    let mut to = at;
    // A loop and no iterator: each step gives the walker of the next.
    loop {
        let walked = walk::walk_step(payload, &CONTAINERS, w);
        let Ok(handed) = walked.handed else {
            return to;
        };
        match handed {
            Handed::Item(visit) => {
                to = item_line(out, to, visit);
                w = walked.next;
            }
            Handed::End(p) => {
                return number_line(out, to, b"pad ", p.0);
            }
        }
    }
}

// The listing of a packet's payload behind what the packet says of itself.
fn list_payload(payload: &[u8], figures: Figures, out: &mut [u8]) -> usize
    ensures { (result ≡ behind out.old 0
        (payload_lines (head_line figures.seq figures.minor figures.len) (walk_of Forbidden payload.now containers)))
        × (out.new ≡ laid out.old 0
        (payload_lines (head_line figures.seq figures.minor figures.len) (walk_of Forbidden payload.now containers))) }
{
    let opened = walk::open_walk(payload, &CONTAINERS, Repeats::Forbidden);
    let n = opened.refusal;
    if n != 0 {
        return refused_line(out, n);
    }
    let to = head_line(out, figures);
    item_lines(payload, opened, out, to)
}

// The listing of a packet at the front of out, as much of it as out has room for.
fn lay(packet: &[u8], out: &mut [u8]) -> usize
    ensures { (result ≡ behind out.old 0 (listing_of packet.now))
        × (out.new ≡ laid out.old 0 (listing_of packet.now)) }
{
    match af::check(packet) {
        Err(e) => refused_line(out, u8::from(e)),
        Ok(figures) => list_payload(af::payload(packet), figures, out),
    }
}

// Writes the listing of a packet at the front of out and answers its length; 1 where out is too short for it, and then out stays as it is.
pub fn list(packet: &[u8], out: &mut [u8]) -> Result<usize, Refusal>
    ensures { outcome (number_of result) out.new ≡ list_call packet.now out.old }
{
    let mut listing = [0u8; LISTING];
    let n = lay(packet, &mut listing);
    if out.len() < n {
        return Err(Refusal::Room);
    }
    text::plain(out, 0, &listing[..n]);
    Ok(n)
}
