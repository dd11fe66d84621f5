// Questions on the field of 256 elements.
ghost use Rattle.console.specs.inner.Answered.{Answered};
ghost use Rattle.text_rules.specs.Wrote.{Wrote};

use crate::{replies, words};
use base::Refusal;

// The answer; none where the line is no question on the field or malformed.
pub(crate) fn answer(asked: (&[u8], usize), line: &[u8], out: &mut [u8]) -> Option<usize>
    ensures { Answered out.old result out.new }
{
    match asked {
        (b"mul", 2) => answer_mul(line, out),
        (b"div", 2) => answer_div(line, out),
        (b"log", 1) => answer_log(line, out),
        (b"pow", 1) => answer_pow(line, out),
        _ => None,
    }
}

// `mul A B` is answered `value N`.
fn answer_mul(line: &[u8], out: &mut [u8]) -> Option<usize>
    ensures { Answered out.old result out.new }
{
    let a = element_at(line, 1)?;
    let b = element_at(line, 2)?;
    Some(write_value(out, field::product(a, b)))
}

// `div A B` is answered `value N`, or `refused 44`.
fn answer_div(line: &[u8], out: &mut [u8]) -> Option<usize>
    ensures { Answered out.old result out.new }
{
    let a = element_at(line, 1)?;
    let b = element_at(line, 2)?;
    Some(write_element(out, field::quotient(a, b)))
}

// `log A` is answered `value N`, or `refused 44`.
fn answer_log(line: &[u8], out: &mut [u8]) -> Option<usize>
    ensures { Answered out.old result out.new }
{
    let a = element_at(line, 1)?;
    Some(write_element(out, field::logarithm(a)))
}

// `pow E` is answered `value N`: the power of α with that exponent.
fn answer_pow(line: &[u8], out: &mut [u8]) -> Option<usize>
    ensures { Answered out.old result out.new }
{
    let e = words::decimal_at(line, 1)?;
    Some(write_value(out, field::power(e)))
}

// The element that the word with that number says.
fn element_at(line: &[u8], at: usize) -> Option<u8> {
    u8::try_from(words::decimal_at(line, at)?).ok()
}

// An element, or the refusal.
fn write_element(out: &mut [u8], element: Result<u8, Refusal>) -> usize
    ensures { Wrote out.old 0 result out.new }
{
    match element {
        Ok(x) => write_value(out, x),
        Err(e) => replies::refused(out, e),
    }
}

// One element.
fn write_value(out: &mut [u8], x: u8) -> usize
    ensures { Wrote out.old 0 result out.new }
{
    replies::number(out, b"value ", x as usize)
}
