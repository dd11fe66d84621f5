// Questions on the bandwidth of "rbw_": read, written, and kept with the widest and narrowest so far.
ghost use Rattle.text_rules.specs.Wrote.{Wrote};
ghost use Rattle.console.specs.inner.Answered.{Answered};
ghost use Rattle.std.specs.Prelude.{◌≡◌, ◌≤◌};
ghost use Rattle.std.specs.Float.{binary32};
ghost use Rattle.std.specs.Float.Ieee.{nan_bits};

use crate::{replies, words};
use bandwidth::Widths;
use base::Refusal;

// The bytes of a record: three patterns and the flag.
const RECORD: usize = 13;

// The answer; none where the line is no question on the bandwidth or malformed.
pub(crate) fn answer(asked: (&[u8], usize), line: &[u8], out: &mut [u8]) -> Option<usize>
    ensures { Answered out.old result out.new }
{
    match asked {
        (b"rbw", 2 | 3) => {
            let repeats = words::repeats_at(line, 3)?;
            answer_packets(line, out, 1, repeats, None)
        }
        (b"rbwseen", 3) => {
            let record = record_in(line)?;
            answer_packets(line, out, 2, item::Repeats::Forbidden, Some(record))
        }
        (b"rbwitem", 2) => answer_item(line, out),
        _ => None,
    }
}

// Whether a pattern is a NaN's: its exponent is all ones, and not all digits behind it are 0.
fn is_nan(pattern: u32) -> bool
    ensures { result ≡ nan_bits binary32 pattern }
{
    if pattern % 0x80000000 / 0x800000 == 255 {
        pattern % 0x800000 != 0
    } else {
        false
    }
}

// The float of a pattern. That of a NaN's is made, since no pattern is the NaN's own.
fn float_of(pattern: u32) -> f32 {
    if is_nan(pattern) {
        0.0 / 0.0
    } else {
        f32::from_bits(pattern)
    }
}

// The pattern of a float. No answer has a NaN; where one had, this would be its pattern.
fn pattern_of(x: f32) -> u32 {
    if x != x { 0x7FC00000 } else { f32::to_bits(x) }
}

// The record that `rbwseen` gives: patterns of which none is a NaN's, and a flag that is 0 or 1.
fn record_in(line: &[u8]) -> Option<Widths> {
    let mut raw = [0u8; RECORD];
    let n = words::bytes_at(line, 1, &mut raw)?.len();
    if n != RECORD || 1 < raw[12] {
        return None;
    }
    let last = base::read4(&raw, 0);
    let widest = base::read4(&raw, 4);
    let narrowest = base::read4(&raw, 8);
    if is_nan(last) || is_nan(widest) || is_nan(narrowest) {
        return None;
    }
    Some(Widths {
        last: float_of(last),
        widest: float_of(widest),
        narrowest: float_of(narrowest),
        any: raw[12] == 1,
    })
}

// The packet and the standing packet that the words from `at` on give.
fn answer_packets(
    line: &[u8],
    out: &mut [u8],
    at: usize,
    repeats: item::Repeats,
    record: Option<Widths>,
) -> Option<usize>
    requires { at ≤ 8 }
    ensures { Answered out.old result out.new }
{
    let mut buffer = [0u8; words::BYTES];
    let packet = words::bytes_at(line, at, &mut buffer)?;
    let mut other = [0u8; words::BYTES];
    let standing = words::bytes_at(line, at + 1, &mut other)?;
    Some(read_and_write(out, packet, standing, repeats, record))
}

// `rbw PACKET STANDING [once|repeat]` is answered `width PATTERN`, `notavailable` or `refused N`; `rbwseen RECORD PACKET STANDING` is answered
// `seen RECORD`, a refused reading too. The record is that of the figures so far, where the question gives one.
fn read_and_write(
    out: &mut [u8],
    packet: &[u8],
    standing: &[u8],
    repeats: item::Repeats,
    record: Option<Widths>,
) -> usize
    ensures { Wrote out.old 0 result out.new }
{
    match record {
        None => write_bandwidth(out, bandwidth::read(packet, standing, repeats)),
        Some(widths) => {
            let watched = bandwidth::watch(widths, packet, standing, repeats);
            write_record(out, watched.widths)
        }
    }
}

// What was read.
fn write_bandwidth(out: &mut [u8], answer: Result<Option<f32>, Refusal>) -> usize
    ensures { Wrote out.old 0 result out.new }
{
    match answer {
        Ok(Some(x)) => {
            let pattern = base::bytes4(pattern_of(x));
            replies::bytes(out, b"width ", &pattern)
        }
        Ok(None) => replies::word(out, b"notavailable"),
        Err(e) => replies::refused(out, e),
    }
}

// The figures so far.
fn write_record(out: &mut [u8], widths: Widths) -> usize
    ensures { Wrote out.old 0 result out.new }
{
    let mut raw = [0u8; RECORD];
    let _ = base::put(&mut raw, 0, &base::bytes4(pattern_of(widths.last)));
    let _ = base::put(&mut raw, 4, &base::bytes4(pattern_of(widths.widest)));
    let _ = base::put(&mut raw, 8, &base::bytes4(pattern_of(widths.narrowest)));
    raw[12] = widths.any as u8;
    replies::bytes(out, b"seen ", &raw)
}

// `rbwitem PATTERN ROOM` is answered `item BYTES`, or `refused N`.
fn answer_item(line: &[u8], out: &mut [u8]) -> Option<usize>
    ensures { Answered out.old result out.new }
{
    let mut four = [0u8; 4];
    let pattern = words::bytes_at(line, 1, &mut four)?;
    let room = words::decimal_to(line, 2, words::BYTES)?;
    let mut item = words::zeros();
    make_and_write(out, pattern, &mut item[..room])
}

// The item of a figure by its pattern, or with no bytes of a pattern that of none, in the buffer that is lent for it.
fn make_and_write(out: &mut [u8], pattern: &[u8], room: &mut [u8]) -> Option<usize>
    ensures { Answered out.old result out.new }
{
    match *pattern {
        [] => {
            let none = bandwidth::write_none(room);
            replies::written(out, b"item ", none, room, item::HEAD)
        }
        [a, b, c, d] => {
            let width = float_of(u32::from_be_bytes([a, b, c, d]));
            let written = bandwidth::write_width(width, room);
            replies::written(out, b"item ", written, room, item::HEAD + 2)
        }
        _ => None,
    }
}
