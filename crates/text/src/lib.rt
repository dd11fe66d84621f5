// Writing text into a lent buffer from a place on. Each writer answers the place behind what it wrote, and stops at the buffer's
// end, so a run of writers needs no test in between: what they write one behind the other is one text.
#![tactic(auto)]

ghost use Rattle.std.specs.Prelude.{◌≡◌, [], ◌∷◌, ◌<◌, ◌≤◌, length, drop};
ghost use Rattle.text_rules.specs.Text.{laid, behind, letter_of, decimal_of, hex_of};

// Bytes as they are.
pub fn plain(out: &mut [u8], at: usize, letters: &[u8]) -> usize
    ensures { (result ≡ behind out.old at letters.now)
        × (out.new ≡ laid out.old at letters.now) }
{
    if out.len() < at {
        return at;
    }
    let n = letters.len().min(out.len() - at);
    let _ = base::put(out, at, &letters[..n]);
    at + n
}

// Bytes in hex, two digits each.
pub fn hex(out: &mut [u8], at: usize, raw: &[u8]) -> usize
    ensures { (result ≡ behind out.old at (hex_of raw.now))
        × (out.new ≡ laid out.old at (hex_of raw.now)) }
{
    let mut to = at;
    for value in raw {
        to = byte(out, to, *value);
    }
    to
}

// A number in decimal, with no zeros in front.
pub fn decimal(out: &mut [u8], at: usize, value: usize) -> usize
    ensures { (result ≡ behind out.old at (decimal_of value)) × (out.new ≡ laid out.old at (decimal_of value)) }
{
    let mut digits = [b'0'; 20];
    let first = digits_of(value, &mut digits);
    plain(out, at, &digits[first..])
}

// One byte in hex.
fn byte(out: &mut [u8], at: usize, value: u8) -> usize
    ensures { (result ≡ behind out.old at (hex_of (value ∷ []))) × (out.new ≡ laid out.old at (hex_of (value ∷ []))) }
{
    plain(out, at, &[letter(value / 16), letter(value % 16)])
}

// Puts the decimal digits of a number at the end of twenty places, and answers where they start.
fn digits_of(value: usize, digits: &mut [u8; 20]) -> usize
    ensures { (result < 20) × (drop result digits.new ≡ decimal_of value) }
{
    // The place goes down by hand: how many digits there are shows only as they are cut off.
    let mut i = 19;
    let mut rest = value;
    while 10 <= rest {
        digits[i] = letter((rest % 10) as u8);
        rest /= 10;
        i -= 1;
    }
    digits[i] = letter(rest as u8);
    i
}

// The letter of a digit.
fn letter(digit: u8) -> u8
    requires { digit < 16 }
    ensures { result ≡ letter_of digit }
{
    if digit < 10 {
        b'0' + digit
    } else {
        b'a' - 10 + digit
    }
}
