// Questions on plans: how a packet of some length is cut, what the cut stands, and which settings have a name. Settings in their words
// stand in the sender's questions too.
ghost use Rattle.std.specs.Prelude.{◌≡◌};
ghost use Rattle.text_rules.specs.Text.{laid, behind};
ghost use Rattle.text_rules.specs.Wrote.{Wrote};
ghost use Rattle.console.specs.inner.Answered.{Answered};
ghost use Rattle.console.specs.inner.Said.{address_said};

use crate::{losses, replies, words};
use base::Refusal;

// The answer; none where the line is no question on plans or malformed. `house` and `twolosses` are
// answered `settings FEC M MTU ADDR`.
pub(crate) fn answer(asked: (&[u8], usize), line: &[u8], out: &mut [u8]) -> Option<usize>
    ensures { Answered out.old result out.new }
{
    match asked {
        (b"plan", 5 | 6) => answer_plan(line, out),
        (b"endure", 5 | 6) => losses::answer(line, out),
        (b"house", 0) => Some(write_settings(out, cut::house())),
        (b"twolosses", 0) => Some(write_settings(out, cut::two_losses())),
        _ => None,
    }
}

// `plan FEC M MTU ADDR L` is answered with the figures, or `refused N`; with `old` or `new` behind L the
// figures are followed by the losses assured.
fn answer_plan(line: &[u8], out: &mut [u8]) -> Option<usize>
    ensures { Answered out.old result out.new }
{
    let (g, l) = cut_in(line)?;
    let ruled = words::nth(line, 6).is_some();
    Some(write_planned(out, cut::plan(g, l), ruled))
}

// The figures, or the refusal.
fn write_planned(out: &mut [u8], planned: Result<cut::Figures, Refusal>, ruled: bool) -> usize
    ensures { Wrote out.old 0 result out.new }
{
    match planned {
        Ok(figures) => write_cut(out, figures, ruled),
        Err(e) => replies::refused(out, e),
    }
}

// What a question FEC M MTU ADDR L [RULE] asks of: the settings, and the length of a packet.
pub(crate) fn cut_in(line: &[u8]) -> Option<(cut::Settings, usize)> {
    Some((settings(line, 6)?, words::decimal_at(line, 5)?))
}

// The settings FEC M MTU ADDR, and the rule in the word with the number `last`; each word has to say
// what stands in its place.
pub(crate) fn settings(line: &[u8], last: usize) -> Option<cut::Settings> {
    Some(cut::Settings {
        fec: words::decimal_to(line, 1, 1)? == 1,
        m: words::decimal_at(line, 2)?,
        mtu: words::decimal_at(line, 3)?,
        address: words::address_at(line, 4)?,
        rule: rule_at(line, last)?,
    })
}

// The rule that the word with that number says, `old` or `new`; where the line has no such word, the
// older one.
fn rule_at(line: &[u8], at: usize) -> Option<cut::Rule> {
    match words::nth(line, at) {
        None | Some(b"old") => Some(cut::Rule::Older),
        Some(b"new") => Some(cut::Rule::Newer),
        Some(_) => None,
    }
}

// The figures of a cut, and where a rule was said the losses that it assures.
fn write_cut(out: &mut [u8], f: cut::Figures, ruled: bool) -> usize
    ensures { Wrote out.old 0 result out.new }
{
    let at = write_plan(out, f);
    if ruled {
        return replies::labelled(out, at, b" assured=", f.assured);
    }
    at
}

// The figures in a row, each behind a blank, its name and an equals sign.
fn write_plan(out: &mut [u8], f: cut::Figures) -> usize
    ensures { Wrote out.old 0 result out.new }
{
    let figures = [
        (b'c', f.c),
        (b'k', f.k),
        (b'z', f.z),
        (b'n', f.n),
        (b'S', f.room),
        (b'L', f.total),
        (b'f', f.f),
        (b's', f.s),
        (b'h', f.h),
    ];
    let mut at = replies::word(out, b"plan");
    for (name, value) in figures {
        at = replies::labelled(out, at, &[b' ', name, b'='], value);
    }
    at
}

// Settings in the words in which a question has them.
fn write_settings(out: &mut [u8], g: cut::Settings) -> usize
    ensures { Wrote out.old 0 result out.new }
{
    let mut at = replies::number(out, b"settings ", usize::from(g.fec));
    at = replies::labelled(out, at, b" ", g.m);
    at = replies::labelled(out, at, b" ", g.mtu);
    write_address(out, at, g.address)
}

// An address behind a blank: source and then destination, `-` for none. No question has it answered with an address, so that the
// vectors would not notice a wrong one: its promise says what stands there.
fn write_address(out: &mut [u8], at: usize, address: Option<cut::Address>) -> usize
    ensures { (result ≡ behind out.old at (address_said address))
        × (out.new ≡ laid out.old at (address_said address)) }
{
    match address {
        None => text::plain(out, at, b" -"),
        Some(a) => {
            let to = text::plain(out, at, b" ");
            let behind = text::hex(out, to, &base::bytes2(a.source));
            text::hex(out, behind, &base::bytes2(a.dest))
        }
    }
}
