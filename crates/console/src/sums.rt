// Questions on sums.
ghost use Rattle.console.specs.inner.Answered.{Answered};

use crate::{replies, words};

// `crc BYTES` is answered `crc HHHH`, as it is sent; none where the line is another or malformed.
pub(crate) fn answer(asked: (&[u8], usize), line: &[u8], out: &mut [u8]) -> Option<usize>
    ensures { Answered out.old result out.new }
{
    match asked {
        (b"crc", 1) => answer_crc(line, out),
        _ => None,
    }
}

// The sum of the bytes.
fn answer_crc(line: &[u8], out: &mut [u8]) -> Option<usize>
    ensures { Answered out.old result out.new }
{
    let mut buffer = [0u8; words::BYTES];
    let bytes = words::bytes_at(line, 1, &mut buffer)?;
    let sent = base::bytes2(crc::word(bytes));
    Some(replies::bytes(out, b"crc ", &sent))
}
