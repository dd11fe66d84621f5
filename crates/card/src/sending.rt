// The sender for C: the plan of a cut, one fragment, and all of them.
ghost use Rattle.std.specs.Prelude.{◌≡◌, [], ◌∷◌};
ghost use Rattle.cut_rules.specs.Plan.{plan_of, values_of};
ghost use Rattle.sender_rules.specs.Calls.{fragment_call, split_values, fragments_call};
ghost use Rattle.card_rules.specs.Told.{CardTold, SentAs};
ghost use Rattle.card_rules.specs.Sending.{rule_of, settings_of, twos};

use crate::address_of;
use crate::telling::{Tells, tell_answer};
use cut::{Figures, Rule, Settings};
use sender::Split;

// The bytes that a plan, a fragment and all fragments tell.
const TOLD_PLAN: usize = 20;

const TOLD_FRAGMENT: usize = 2;

const TOLD_FRAGMENTS: usize = 8;

// The rule of sizes.
fn rule_of(newer: usize) -> Rule
    ensures { result ≡ rule_of newer }
{
    if newer == 0 {
        return Rule::Older;
    }
    Rule::Newer
}

// The settings, which C hands in one by one.
pub(crate) fn settings_of(
    fec: usize,
    m: usize,
    newer: usize,
    mtu: usize,
    addressed: usize,
    source: u16,
    dest: u16,
) -> Settings
    ensures { result ≡ settings_of fec m newer mtu addressed source dest }
{
    Settings {
        fec: fec != 0,
        m,
        mtu,
        address: address_of(addressed, source, dest),
        rule: rule_of(newer),
    }
}

// What is told of a plan.
impl Tells<10> for Figures {
    ghost values = { values_of };

    fn figures(self) -> [usize; 10] {
        [
            self.c,
            self.k,
            self.z,
            self.n,
            self.h,
            self.room,
            self.total,
            self.f,
            self.s,
            self.assured,
        ]
    }
}

// Plans the cut of a packet of l bytes and tells its figures, and gives 0; else the number of the refusal.
pub fn bailhammer_plan(
    fec: usize,
    m: usize,
    newer: usize,
    mtu: usize,
    addressed: usize,
    l: usize,
    told: &mut [u8],
) -> usize
    ensures { CardTold (twos 10) (plan_of (settings_of fec m newer mtu addressed 0 0) l) told.old told.new result }
{
    let a = cut::plan(settings_of(fec, m, newer, mtu, addressed, 0, 0), l);
    tell_answer(a, told, TOLD_PLAN, &[2; 10])
}

// What is told of a fragment: its length.
impl Tells<1> for usize {
    ghost values = { λ n. n ∷ [] };

    fn figures(self) -> [usize; 1] {
        [self]
    }
}

// Writes one fragment of a packet at the front of out and tells its length, and gives 0; else the number of the refusal.
pub fn bailhammer_fragment(
    fec: usize,
    m: usize,
    newer: usize,
    mtu: usize,
    addressed: usize,
    source: u16,
    dest: u16,
    pseq: u16,
    packet: &[u8],
    index: usize,
    told: &mut [u8],
    out: &mut [u8],
) -> usize
    ensures { SentAs (twos 1) (fragment_call (settings_of fec m newer mtu addressed source dest) pseq packet.now index
        out.old) told.old told.new out.old out.new result }
{
    let g = settings_of(fec, m, newer, mtu, addressed, source, dest);
    // With no bytes to write in nothing is written, and up to 1 the same is due.
    if told.len() < TOLD_FRAGMENT {
        let none = sender::fragment(g, pseq, packet, index, &mut []);
        return tell_answer(none, told, TOLD_FRAGMENT, &[2]);
    }
    let a = sender::fragment(g, pseq, packet, index, out);
    tell_answer(a, told, TOLD_FRAGMENT, &[2])
}

// What is told of all fragments: how what was written is split.
impl Tells<4> for Split {
    ghost values = { split_values };

    fn figures(self) -> [usize; 4] {
        [self.f, self.h, self.s, self.last]
    }
}

// Writes all fragments of a packet at the front of out and tells how out is split, and gives 0; else the number of the refusal.
pub fn bailhammer_fragments(
    fec: usize,
    m: usize,
    newer: usize,
    mtu: usize,
    addressed: usize,
    source: u16,
    dest: u16,
    pseq: u16,
    packet: &[u8],
    told: &mut [u8],
    out: &mut [u8],
) -> usize
    ensures { SentAs (twos 4) (fragments_call (settings_of fec m newer mtu addressed source dest) pseq packet.now out.old)
        told.old told.new out.old out.new result }
{
    let g = settings_of(fec, m, newer, mtu, addressed, source, dest);
    // As in `bailhammer_fragment`.
    if told.len() < TOLD_FRAGMENTS {
        let none = sender::fragments(g, pseq, packet, &mut []);
        return tell_answer(none, told, TOLD_FRAGMENTS, &[2; 4]);
    }
    let a = sender::fragments(g, pseq, packet, out);
    tell_answer(a, told, TOLD_FRAGMENTS, &[2; 4])
}
