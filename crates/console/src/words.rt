// Taking a line apart: the words between its blanks, and what a word says. An empty word says
// nothing of any kind, so two blanks in a row and a blank at an end make a line malformed. Where a word
// does not say what is asked, there is `None`.
ghost use Rattle.std.specs.Prelude.{◌≤◌, length, IfSome};

use std::str;

// The most bytes that one word of a question gives.
pub(crate) const BYTES: usize = 32768;

// A buffer to lend. A function of its own, so that a caller's proof has a name for the array and not
// its elements.
pub(crate) fn zeros() -> [u8; BYTES] {
    [0u8; BYTES]
}

// The line's first word, which names a question, and how many words follow it: one for each blank. Taken once a
// line, and handed to each group of questions, since a line may have 66,047 letters.
pub(crate) fn question(line: &[u8]) -> (&[u8], usize) {
    let mut follow = 0;
    // A loop, since it is done many letters at a time; a split that is counted goes letter by letter.
    for letter in line {
        if *letter == b' ' {
            follow += 1;
        }
    }
    (nth(line, 0).unwrap_or(&[]), follow)
}

// The word with that number, counted from 0; a line may have fewer.
pub(crate) fn nth(line: &[u8], number: usize) -> Option<&[u8]> {
    line.split(|letter| *letter == b' ').nth(number)
}

// What the word with that number says where a number is asked.
pub(crate) fn decimal_at(line: &[u8], at: usize) -> Option<usize> {
    decimal(nth(line, at)?)
}

// The same, where no number above `most` is asked.
pub(crate) fn decimal_to(line: &[u8], at: usize, most: usize) -> Option<usize>
    ensures { IfSome result (λ n. n ≤ most) }
{
    decimal_at(line, at).filter(|n| *n <= most)
}

// The number that a word of decimal digits says; zeros in front change nothing. A word that has
// another letter or none, or says a number too large, is malformed. The library's `parse` takes a sign too.
pub(crate) fn decimal(word: &[u8]) -> Option<usize> {
    if !word.iter().all(|letter| letter.is_ascii_digit()) {
        return None;
    }
    str::from_utf8(word).ok()?.parse().ok()
}

// The bytes that the word with that number says in hex digits, put at the front of the buffer; `-` stands for
// none. Bytes that do not fit the buffer are malformed too, and what was put there is left.
pub(crate) fn bytes_at<'a>(line: &[u8], at: usize, buffer: &'a mut [u8]) -> Option<&'a [u8]>
    ensures { IfSome result (λ bytes. length bytes.now ≤ length buffer.old) }
{
    let word = nth(line, at)?;
    if word == b"-".as_slice() {
        return Some(&[]);
    }
    let count = word.len() / 2;
    if count == 0 || word.len() % 2 != 0 || buffer.len() < count {
        return None;
    }
    let front = &mut buffer[..count];
    for (byte, pair) in front.iter_mut().zip(word.chunks_exact(2)) {
        *byte = 16 * nibble(pair[0])? + nibble(pair[1])?;
    }
    Some(front)
}

// What a hex digit in lower case stands for. The library's `to_digit` takes upper case too.
fn nibble(letter: u8) -> Option<u8>
    ensures { IfSome result (λ digit. digit ≤ 15) }
{
    match letter {
        b'0'..=b'9' => Some(letter - b'0'),
        b'a'..=b'f' => Some(letter - b'a' + 10),
        _ => None,
    }
}

// The address that the word with that number says: four bytes, source and then destination, or `-` for none.
pub(crate) fn address_at(line: &[u8], at: usize) -> Option<Option<cut::Address>> {
    let mut four = [0u8; 4];
    match *bytes_at(line, at, &mut four)? {
        [] => Some(None),
        [a, b, c, d] => Some(Some(cut::Address {
            source: u16::from_be_bytes([a, b]),
            dest: u16::from_be_bytes([c, d]),
        })),
        _ => None,
    }
}

// The name of an item that the word with that number says: four bytes.
pub(crate) fn name_at(line: &[u8], at: usize) -> Option<u32> {
    let mut four = [0u8; 4];
    match *bytes_at(line, at, &mut four)? {
        [a, b, c, d] => Some(u32::from_be_bytes([a, b, c, d])),
        _ => None,
    }
}

// Whether names may repeat, as the word with that number says, `once` or `repeat`; where the line has
// no such word, they may not.
pub(crate) fn repeats_at(line: &[u8], at: usize) -> Option<item::Repeats> {
    match nth(line, at) {
        None | Some(b"once") => Some(item::Repeats::Forbidden),
        Some(b"repeat") => Some(item::Repeats::Allowed),
        Some(_) => None,
    }
}
