// What several answers are made of. The buffer and the place in it stay two parameters, as in crate text: each function that took a struct of
// the two would have to promise that it still lends the same buffer, in place of asking that the place is in it.
ghost use Rattle.std.specs.Prelude.{◌≡◌, ◌++◌, ◌≤◌, length};
ghost use Rattle.text_rules.specs.Text.{laid, behind, decimal_of};
ghost use Rattle.text_rules.specs.Wrote.{Wrote};
ghost use Rattle.console.specs.inner.Answered.{Answered};

use base::Refusal;

// A number behind a label.
pub(crate) fn labelled(out: &mut [u8], at: usize, label: &[u8], value: usize) -> usize
    ensures { (result ≡ behind out.old at (label.now ++ decimal_of value))
        × (out.new ≡ laid out.old at (label.now ++ decimal_of value)) }
{
    let to = text::plain(out, at, label);
    text::decimal(out, to, value)
}

// An answer that is one word.
pub(crate) fn word(out: &mut [u8], letters: &[u8]) -> usize
    ensures { Wrote out.old 0 result out.new }
{
    text::plain(out, 0, letters)
}

// A number behind the answer's name.
pub(crate) fn number(out: &mut [u8], name: &[u8], value: usize) -> usize
    ensures { Wrote out.old 0 result out.new }
{
    labelled(out, 0, name, value)
}

// Bytes behind the answer's name.
pub(crate) fn bytes(out: &mut [u8], name: &[u8], raw: &[u8]) -> usize
    ensures { Wrote out.old 0 result out.new }
{
    let at = text::plain(out, 0, name);
    text::hex(out, at, raw)
}

// A line that is no question.
pub(crate) fn unknown(out: &mut [u8]) -> usize
    ensures { Wrote out.old 0 result out.new }
{
    word(out, b"unknown")
}

// A refusal with its number.
pub(crate) fn refused(out: &mut [u8], e: Refusal) -> usize
    ensures { Wrote out.old 0 result out.new }
{
    refused_by(out, u8::from(e))
}

// The number of a refusal that a reader or a walk shows.
pub(crate) fn refused_by(out: &mut [u8], by: u8) -> usize
    ensures { Wrote out.old 0 result out.new }
{
    number(out, b"refused ", by as usize)
}

// Bytes behind a label, `-` for none.
pub(crate) fn value(out: &mut [u8], at: usize, label: &[u8], raw: &[u8]) -> usize
    requires { at ≤ length out.old }
    ensures { Wrote out.old at result out.new }
{
    let to = text::plain(out, at, label);
    if raw.is_empty() {
        return text::plain(out, to, b"-");
    }
    text::hex(out, to, raw)
}

// The n bytes that a call wrote at the front of a buffer, behind the answer's name. No call writes more
// than it was lent, and where one did there would be no answer.
pub(crate) fn front(out: &mut [u8], name: &[u8], buffer: &[u8], n: usize) -> Option<usize>
    ensures { Answered out.old result out.new }
{
    let written = buffer.get(..n)?;
    Some(bytes(out, name, written))
}

// The same, or the call's refusal.
pub(crate) fn written(
    out: &mut [u8],
    name: &[u8],
    by: Result<(), Refusal>,
    buffer: &[u8],
    n: usize,
) -> Option<usize>
    ensures { Answered out.old result out.new }
{
    match by {
        Ok(()) => front(out, name, buffer, n),
        Err(e) => Some(refused(out, e)),
    }
}
