// The figure of "rbw_" as a float, which float is one, and the widest and narrowest so far (document 02, Item 10): floats alone, without the TAG layer,
// on which `bandwidth` puts them.
#![tactic(auto)]

ghost use Rattle.std.specs.Prelude.{◌≡◌, true, false, pos};
ghost use Rattle.std.specs.Float.Ieee as Ieee;
ghost use Rattle.std.specs.Float.{fin, binary32};
ghost use Rattle.bandwidth_rules.specs.Figure.{scale, figure_of, whole_of};
ghost use Rattle.bandwidth_rules.specs.Seen.{no_widths, wider, narrower, with_width, seen_of};

pub use bandwidth_rules::Widths;

// n / 256, which a float of 32 bits holds exactly.
pub fn figure(n: u16) -> f32
    ensures { result ≡ figure_of n }
{
    n as f32 / 256.0
}

// Which figure x is, where v, 256 times x, is from 0 to 65,535: x has to have its figure's very pattern, so that a fraction of a 256th and minus zero
// fall out.
fn whole_near(x: f32, v: f32) -> Option<u16>
    requires { (Ieee.le (fin false 0 (pos 0)) v ≡ true) × (Ieee.le v (fin false 65535 (pos 0)) ≡ true) × (v ≡ Ieee.mul binary32 x scale) }
    ensures { result ≡ whole_of x }
{
    let n = std::num::truncating_f32_to_u64(v);
    if n <= 65535 {
        let y = figure(n as u16);
        if f32::to_bits(y) == f32::to_bits(x) {
            return Some(n as u16);
        }
    }
    None
}

// Which figure x is, if it is one. Each test has to pass, so that a NaN falls out.
pub fn whole_of(x: f32) -> Option<u16>
    ensures { result ≡ whole_of x }
{
    let v = x * 256.0;
    if v >= 0.0 {
        if v <= 65535.0 {
            return whole_near(x, v);
        }
    }
    None
}

// No figure has come.
pub fn fresh() -> Widths
    ensures { result ≡ no_widths }
{
    Widths {
        last: 0.0,
        widest: 0.0,
        narrowest: 0.0,
        any: false,
    }
}

// The wider of two: a, unless a < x. So a stays where they are equal and where one is a NaN, which `max` does not promise.
fn wider_of(a: f32, x: f32) -> f32
    ensures { result ≡ wider a x }
{
    if a < x { x } else { a }
}

// The narrower of two: a, unless x < a. So a stays where they are equal and where one is a NaN, which `min` does not promise.
fn narrower_of(a: f32, x: f32) -> f32
    ensures { result ≡ narrower a x }
{
    if x < a { x } else { a }
}

// With one more figure: the first that comes is the last, the widest and the narrowest.
fn with_width(widths: Widths, x: f32) -> Widths
    ensures { result ≡ with_width widths x }
{
    if widths.any {
        Widths {
            last: x,
            widest: wider_of(widths.widest, x),
            narrowest: narrower_of(widths.narrowest, x),
            any: true,
        }
    } else {
        Widths {
            last: x,
            widest: x,
            narrowest: x,
            any: true,
        }
    }
}

// The figures so far with one more answer, which leaves them as they stood unless it is a figure, whatever a refusal is.
pub fn seen<E: Copy>(widths: Widths, answer: Result<Option<f32>, E>) -> Widths
    ensures { result ≡ seen_of widths answer }
{
    let Ok(width) = answer else {
        return widths;
    };
    match width {
        Some(x) => with_width(widths, x),
        None => widths,
    }
}
