// Reads questions from standard input, one a line, and writes one answer line for each. The work is
// done by the library; here a line is collected from what each read brings.
#![tactic(auto)]

ghost use Rattle.std.specs.Prelude.{◌≤◌, length, IfOk, IfSome};

use std::io;
use std::io::{Read, Write};

// The most bytes that one read brings.
const CHUNK: usize = 4096;

// Room for an answer and its newline. A function of its own, so that a proof has a name for the array
// and not its elements.
fn room() -> [u8; console::ANSWER + 1] {
    [0u8; console::ANSWER + 1]
}

// Answers one line.
fn reply<W: Write>(writer: &mut W, line: &[u8], seat: &mut [u8]) -> io::Result<()> {
    let mut out = room();
    let n = console::answer(line, seat, &mut out[..console::ANSWER]);
    if n == 0 {
        return Ok(());
    }
    out[n] = b'\n';
    writer.write_all(&out[..n + 1])
}

// Takes one byte of input, and says how many bytes of the line are then held. What does not fit the line is dropped: a full line is no question.
fn take_byte<W: Write>(
    writer: &mut W,
    byte: u8,
    line: &mut [u8],
    used: usize,
    seat: &mut [u8],
) -> io::Result<usize>
    requires { used ≤ length line.old }
    ensures { IfOk result (λ n. n ≤ length line.new) }
{
    if byte == b'\n' {
        reply(writer, &line[..used], seat)?;
        return Ok(0);
    }
    if used < line.len() {
        line[used] = byte;
        return Ok(used + 1);
    }
    Ok(used)
}

// Takes what one read brought, and says the same.
fn take_all<W: Write>(
    writer: &mut W,
    chunk: &[u8],
    line: &mut [u8],
    used: usize,
    seat: &mut [u8],
) -> io::Result<usize>
    requires { used ≤ length line.old }
    ensures { IfOk result (λ n. n ≤ length line.new) }
{
    let mut n = used;
    for byte in chunk {
        n = take_byte(writer, *byte, line, n, seat)?;
    }
    Ok(n)
}

// Reads once, and says how many bytes of the next line are held, or none where the input has ended. The
// end of the input ends the line that is held, too.
fn take_some<R: Read, W: Write>(
    reader: &mut R,
    writer: &mut W,
    line: &mut [u8],
    used: usize,
    seat: &mut [u8],
) -> io::Result<Option<usize>>
    requires { used ≤ length line.old }
    ensures { IfOk result (λ held. IfSome held (λ n. n ≤ length line.new)) }
{
    let mut chunk = [0u8; CHUNK];
    let n = reader.read(&mut chunk)?;
    if n == 0 {
        reply(writer, &line[..used], seat)?;
        return Ok(None);
    }
    let held = take_all(writer, &chunk[..n], line, used, seat)?;
    Ok(Some(held))
}

// Answers every line of the input. A proved loop has to end, and nothing says that the input does.
// So the loop has a number of reads that no run uses up.
fn answer_all<R: Read, W: Write>(
    reader: &mut R,
    writer: &mut W,
    line: &mut [u8],
    seat: &mut [u8],
) -> io::Result<()> {
    let mut used = 0;
    for _ in 0..u64::MAX {
        let Some(n) = take_some(reader, writer, line, used, seat)? else {
            break;
        };
        used = n;
    }
    Ok(())
}

fn main(rt: HostRuntime) -> io::Result<()> {
    let mut line = [0u8; console::LINE];
    let mut seat = [0u8; console::SEAT];
    answer_all(&mut rt.stdin(), &mut rt.stdout(), &mut line, &mut seat)
}
