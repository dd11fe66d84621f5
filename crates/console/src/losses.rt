// The question how many losses a cut stands, exactly.
ghost use Rattle.std.specs.Prelude.{◌≤◌, length};
ghost use Rattle.text_rules.specs.Wrote.{Wrote};
ghost use Rattle.console.specs.inner.Answered.{Answered};

use crate::{plans, replies};
use base::{MOST_F, Refusal};
use endurance::Losses;

// `endure FEC M MTU ADDR L [RULE]` is answered `endures W of F losing I,J,..`, or `refused N`; none where the line is malformed.
pub(crate) fn answer(line: &[u8], out: &mut [u8]) -> Option<usize>
    ensures { Answered out.old result out.new }
{
    let (g, l) = plans::cut_in(line)?;
    let e = endurance::endure(g, l);
    Some(write_endured(out, e.answer, e.lost))
}

// What the cut stands, or the refusal.
fn write_endured(out: &mut [u8], stood: Result<Losses, Refusal>, lost: [bool; MOST_F]) -> usize
    ensures { Wrote out.old 0 result out.new }
{
    match stood {
        Ok(stood) => write_losses(out, stood, lost),
        Err(e) => replies::refused(out, e),
    }
}

// The two figures, and the set that is one too many.
fn write_losses(out: &mut [u8], stood: Losses, lost: [bool; MOST_F]) -> usize
    ensures { Wrote out.old 0 result out.new }
{
    let at = replies::number(out, b"endures ", stood.most);
    let to = replies::labelled(out, at, b" of ", stood.f);
    write_set(out, to, lost)
}

// The fragments of a set, the first behind a word and the others behind commas.
fn write_set(out: &mut [u8], at: usize, lost: [bool; MOST_F]) -> usize
    requires { at ≤ length out.old }
    ensures { Wrote out.old at result out.new }
{
    let mut to = at;
    for (i, lost) in lost.iter().enumerate() {
        to = write_fragment(out, to, *lost, to == at, i);
    }
    to
}

// A fragment by its index, where it is in the set.
fn write_fragment(out: &mut [u8], at: usize, lost: bool, first: bool, i: usize) -> usize
    requires { at ≤ length out.old }
    ensures { Wrote out.old at result out.new }
{
    if !lost {
        return at;
    }
    if first {
        return replies::labelled(out, at, b" losing ", i);
    }
    replies::labelled(out, at, b",", i)
}
