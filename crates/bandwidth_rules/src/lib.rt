// Document 02, Item 10, as definitions: the bandwidth of "rbw_" as a float, read, written and watched, and what is claimed of that. No functions:
// crates `widths` and `bandwidth` have them.
#![tactic(auto)]

pub use base_rules::Refusal;

// The last figure, the widest and the narrowest so far; and whether any has come. Where none has, the three say nothing.
#[derive(Clone, Copy)]
pub struct Widths {
    pub last: f32,
    pub widest: f32,
    pub narrowest: f32,
    pub any: bool,
}

// What a packet answers: the bandwidth that was sent, in kHz, as a float of 32 bits, or None where no figure is available; and the figures so far with
// it.
#[derive(Clone, Copy)]
pub struct Watched {
    pub answer: Result<Option<f32>, Refusal>,
    pub widths: Widths,
}
