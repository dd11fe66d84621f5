// What the far end holds and lacks, drawn from the receiver's record: a row of the fragments, and the bytes that the worst chunk misses as a
// number and a bar. The bar has its mark at 48, and the packet is formed at the first fragment after which no chunk's bar passes the mark.
ghost use Rattle.std.specs.Prelude.{◌≡◌, true, false, ◌+◌, ◌*◌, ◌≤◌, ◌<◌, leb};
ghost use Rattle.base_rules.specs.Bounds.{most_f, place, parity};
ghost use Rattle.cut_rules.specs.Missing.{missing};
ghost use Rattle.cut_rules.specs.Sizes.{received_c};
ghost use Rattle.weave_rules.specs.Calls.{not_kept};
ghost use Rattle.places_rules.specs.Faults.{bad_place};
ghost use Rattle.form_rules.specs.Agree.{enough_in, lost_in};
ghost use Rattle.relay.specs.inner.Missed.{most_missing};

use base::{MOST_F, PARITY};
use places::Place;

// The bytes that a letter of a bar stands for: 48 is a multiple of it.
const STEP: usize = 8;

// The letters before the mark.
const MARK: usize = PARITY / STEP;

// Where the drawing begins in its line: behind the words for one of a hundred fragments.
const COLUMN: usize = 23;

// The most letters of one kind in a row.
const RUN: usize = 64;

// The bytes of chunk j, of n bytes, that are missing: those of the fragments not kept.
fn missing_of(kept: [bool; MOST_F], f: usize, n: usize, j: usize) -> usize
    requires { (0 < f) × (f ≤ most_f) × (j * n + n ≤ place) }
    ensures { (result ≡ missing (not_kept kept) f n j) × (result ≤ n) }
{
    let from = j * n;
    let mut gone = 0;
    // An index, since it begins anew at f, where a slice of `kept` ends.
    for t in 0..n {
        if !kept[(from + t) % f] {
            gone += 1;
        }
    }
    gone
}

// The most bytes that one of c chunks of n bytes misses.
fn most_missing(kept: [bool; MOST_F], f: usize, n: usize, c: usize) -> usize
    requires { (0 < f) × (f ≤ most_f) × (c * n ≤ place) }
    ensures { (result ≡ most_missing (not_kept kept) f n c) × (result ≤ n) }
{
    let mut most: usize = 0;
    // A range, since the call takes the number of the chunk: there is no element.
    for j in 0..c {
        most = most.max(missing_of(kept, f, n, j));
    }
    most
}

// The most bytes that one of a place's chunks misses: at most 48 exactly where the receiver's own test says that its fragments suffice.
fn worst_in(p: Place) -> usize
    requires { (bad_place p ≡ false) × (0 < p.count) × (p.fec ≡ true) }
    ensures { (result ≡ most_missing (lost_in p) p.count (p.rsk + parity) (received_c p.count p.size p.rsk))
        × (result ≤ 255) × (leb result parity ≡ enough_in p) }
{
    let kept = p.kept;
    let f = p.count as usize;
    let n = p.rsk as usize + PARITY;
    most_missing(kept, f, n, f * p.size as usize / n)
}

// A letter n times.
fn put_run(line: &mut [u8], at: usize, letter: u8, n: usize) -> usize {
    let run = [letter; RUN];
    if n <= RUN {
        return text::plain(line, at, &run[..n]);
    }
    at
}

// Blanks up to the column of the drawing.
fn put_blanks(line: &mut [u8], at: usize) -> usize {
    if at < COLUMN {
        return put_run(line, at, b' ', COLUMN - at);
    }
    at
}

// o for a fragment that is kept, a dot for one that is not.
fn mark_of(kept: bool) -> u8 {
    if kept { b'o' } else { b'.' }
}

// The marks of the f fragments, in their order.
fn put_kept(line: &mut [u8], at: usize, kept: [bool; MOST_F], f: usize) -> usize
    requires { f ≤ most_f }
{
    let mut to = at;
    for k in &kept[..f] {
        to = put_run(line, to, mark_of(*k), 1);
    }
    to
}

// The letters of a bar for so many missing bytes, rounded up: they pass the mark exactly where more than 48 are missing.
fn letters_of(missed: usize) -> usize
    requires { missed ≤ 255 }
    ensures { (missed ≤ parity → result * 8 ≤ parity) × (parity < missed → parity < result * 8) }
{
    (missed + STEP - 1) / STEP
}

// How many of n letters stand before the mark.
fn before_mark(n: usize) -> usize
    ensures { (result ≤ n) × (result * 8 ≤ parity) }
{
    n.min(MARK)
}

// A bar: dots up to the mark where it does not reach it.
fn put_bar(line: &mut [u8], at: usize, missed: usize) -> usize
    requires { missed ≤ 255 }
{
    let n = letters_of(missed);
    let left = before_mark(n);
    let mut to = put_run(line, at, b'#', left);
    to = put_run(line, to, b'.', MARK - left);
    to = text::plain(line, to, b"|");
    put_run(line, to, b'#', n - left)
}

// The blanks that bring a number to four columns.
fn blanks_before(value: usize) -> usize {
    if value < 10 {
        return 3;
    }
    if value < 100 { 2 } else { 1 }
}

// So many missing bytes, as a number and as a bar.
fn put_missed(line: &mut [u8], at: usize, missed: usize) -> usize
    requires { missed ≤ 255 }
{
    let mut to = put_run(line, at, b' ', blanks_before(missed));
    to = text::decimal(line, to, missed);
    to = text::plain(line, to, b" ");
    put_bar(line, to, missed)
}

// A place with FEC; before its first fragment came it has no figures, and nothing is drawn.
fn put_figures(line: &mut [u8], at: usize, p: Place) -> usize {
    if places::bad_place(p) {
        return at;
    }
    if p.count == 0 {
        return at;
    }
    if !p.fec {
        return at;
    }
    let kept = p.kept;
    let missed = worst_in(p);
    let to = put_kept(line, at, kept, p.count as usize);
    put_missed(line, to, missed)
}

// A place, drawn from its column on.
pub(crate) fn put_place(line: &mut [u8], at: usize, p: Place) -> usize {
    let to = put_blanks(line, at);
    put_figures(line, to, p)
}
