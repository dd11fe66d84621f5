// The console: one question line in, one answer line out. What is asked and what is answered is
// tested by the program over this library; that no answer reads or writes out of bounds, that each
// call ends, and that nothing behind the answer changes, is proved.
#![tactic(auto)]

mod chunks;
mod fields;
mod finding;
mod items;
mod losses;
mod packets;
mod plans;
mod readout;
mod receiving;
mod replies;
mod sending;
mod sums;
mod words;

ghost use Rattle.text_rules.specs.Wrote.{Wrote};
ghost use Rattle.console.specs.inner.Answered.{Answered};

// A line as long as this, or longer, is no question: the longest has the most bytes, two digits
// each, and some other words. So a program collects a line in a buffer of this length and drops
// what does not fit: a full buffer is answered `unknown`.
pub const LINE: usize = 2 * words::BYTES + 512;

// A buffer as long as this holds every answer, and a program lends one. Of an answer that does not fit
// a shorter buffer, what fits is written. The answer to `walkat` has `walk`, for each item at most 26
// letters, as in ` 0:32760:7:6162635f:262080`, and ` end 0`, and each item has a head of 8 bytes of its
// own. No other answer may be as long: that to `itemsat` has `items`, ` end 0`, for each head at most 25
// letters, as in ` 32760:7:6162635f:262080:`, and for each byte of a value at most 2, for which there is
// room for over 3, or `-` for none; `items` is a letter longer than `walk`, and an item of no bits has 5
// letters fewer than 26. Those to `walk` and `items` have no more. That to `endure` has at most 4 letters for each of
// 256 fragments. The rest have 2 letters for each byte that they tell of, and fewer than 100 more, or
// list a packet of at most 8,192 bytes.
pub const ANSWER: usize = 26 * (words::BYTES / 8) + 10;

// A seat: what the receiver's questions leave for the next line. One of zeros holds a fresh table. With a seat of
// another length the receiver's questions are unknown.
pub const SEAT: usize = packed::RECORD + receiving::LENT;

// Answers one line, without its newline, at the front of out, without a newline, and says how many
// bytes the answer has: 0 for an empty line and for a comment.
pub fn answer(line: &[u8], seat: &mut [u8], out: &mut [u8]) -> usize
    ensures { Wrote out.old 0 result out.new }
{
    if line.is_empty() || line.starts_with(b"#") {
        return 0;
    }
    if LINE <= line.len() {
        return replies::unknown(out);
    }
    match ask_all(words::question(line), line, seat, out) {
        Some(n) => n,
        None => replies::unknown(out),
    }
}

// Asks the groups of questions one after another; each has no answer, and leaves the buffer as it is,
// where the line is none of its own or is malformed.
fn ask_all(asked: (&[u8], usize), line: &[u8], seat: &mut [u8], out: &mut [u8]) -> Option<usize>
    ensures { Answered out.old result out.new }
{
    if let Some(n) = ask_stateless(asked, line, out) {
        return Some(n);
    }
    receiving::answer(asked, line, seat, out)
}

// The groups whose answer hangs on the line alone.
fn ask_stateless(asked: (&[u8], usize), line: &[u8], out: &mut [u8]) -> Option<usize>
    ensures { Answered out.old result out.new }
{
    if let Some(n) = ask_figures(asked, line, out) {
        return Some(n);
    }
    if let Some(n) = packets::answer(asked, line, out) {
        return Some(n);
    }
    if let Some(n) = items::answer(asked, line, out) {
        return Some(n);
    }
    sending::answer(asked, line, out)
}

// The groups on what the layers stand on: sums, the sizes of a cut, the field and the code.
fn ask_figures(asked: (&[u8], usize), line: &[u8], out: &mut [u8]) -> Option<usize>
    ensures { Answered out.old result out.new }
{
    if let Some(n) = sums::answer(asked, line, out) {
        return Some(n);
    }
    if let Some(n) = plans::answer(asked, line, out) {
        return Some(n);
    }
    if let Some(n) = fields::answer(asked, line, out) {
        return Some(n);
    }
    chunks::answer(asked, line, out)
}
