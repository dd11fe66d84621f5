// Numbers told as bytes: one behind the other, big-endian.
ghost use Rattle.std.specs.Prelude.{◌≡◌, ℕ, List, ◌-◌, ◌≤◌, length};
ghost use Rattle.base_rules.specs.Answer.{granted};
ghost use Rattle.base_rules.specs.Bytes.{splice, bytes_of};
ghost use Rattle.base_rules.specs.Refusal.{told as Refusal·told};
ghost use Rattle.card_rules.specs.Told.{told_length, CardTold};

use crate::refused;
use base::Refusal;

// What a call's answer holds, as the N numbers that are told of it.
pub(crate) trait Tells<const N: usize>: Copy {
    ghost values: { Self → List ℕ };

    fn figures(self) -> [usize; N]
        ensures { result ≡ values self };
}

// Writes the low bytes of a number from `from` up to `to`: from the last on, as each is the remainder of what is left of the number.
fn put_number(d: &mut [u8], from: usize, to: usize, x: usize)
    requires { (from ≤ to) × (to ≤ length d.old) }
    ensures { d.new ≡ splice d.old from (bytes_of (to - from) x) }
{
    let mut rest = x;
    for i in (from..to).rev() {
        d[i] = (rest % 256) as u8;
        rest /= 256;
    }
}

// Tells numbers one behind the other at the front of what is lent, each in as many bytes as its width says, n in all, and gives 0; 1 where
// fewer are lent.
pub(crate) fn tell(told: &mut [u8], n: usize, widths: &[usize], values: &[usize]) -> usize
    requires { (length values.now ≡ length widths.now) × (told_length widths.now ≡ n) }
    ensures { CardTold widths.now (granted values.now) told.old told.new result }
{
    if told.len() < n {
        return 1;
    }
    let mut at = 0;
    for (width, value) in widths.iter().zip(values) {
        let end = at + *width;
        put_number(told, at, end, *value);
        at = end;
    }
    0
}

// Tells what a call answers, in n bytes, and gives the number of the answer: the refusal's, else 1 where fewer bytes are lent, else 0.
pub(crate) fn tell_answer<const N: usize, T: Tells<N>>(
    r: Result<T, Refusal>,
    told: &mut [u8],
    n: usize,
    widths: &[usize; N],
) -> usize
    requires { told_length widths.now ≡ n }
    ensures { CardTold widths.now (Refusal·told T.values r) told.old told.new result }
{
    match r {
        Ok(a) => tell(told, n, widths, &a.figures()),
        Err(e) => refused(e),
    }
}
