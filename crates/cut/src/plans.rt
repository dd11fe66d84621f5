// The plan of a cut: one small function for each size, so that a change of one rule moves one function.
ghost use Rattle.std.specs.Prelude.{◌≡◌, true, cond, ◌+◌, ◌≤◌, ◌<◌, None, IfOk, IfErr};
ghost use Rattle.base_rules.specs.Answer.{refused};
ghost use Rattle.base_rules.specs.Bounds.{least_l, most_l, most_k, place, most_mtu};
ghost use Rattle.base_rules.specs.Refusal.{number};
ghost use Rattle.cut_rules.specs.Sizes.{c, k, h, header_length, most_h, address_bytes, divisor, S, L, assured_by, assured};
ghost use Rattle.cut_rules.specs.Sizes.{f};
ghost use Rattle.cut_rules.specs.declared.Rule.TheVariants.{Older, Newer};
ghost use Rattle.cut_rules.specs.Plan.{house_of, two_losses_of, fit, plan_of, figures_of, values_of, number_of};

use crate::{Address, Figures, LEAST_H, Rule, Settings};
use base::{LEAST_L, MOST_F, MOST_K, MOST_L, MOST_M, MOST_MTU, PARITY, Refusal};

// With FEC, for m losses, without an address, by the older rule.
fn set_for(m: usize, mtu: usize) -> Settings
    ensures { result ≡ record { fec = true; m = m; mtu = mtu; address = None; rule = Older } }
{
    Settings {
        fec: true,
        m,
        mtu,
        address: None,
        rule: Rule::Older,
    }
}

// The house default: one fragment may be lost.
pub fn house() -> Settings
    ensures { result ≡ house_of }
{
    set_for(1, 1400)
}

// The setting for two losses, the house default of old. Who has to survive two losses asks for it by this name, and it stays
// where the default moves.
pub fn two_losses() -> Settings
    ensures { result ≡ two_losses_of }
{
    set_for(2, 1400)
}

// The bytes of an address in a header.
fn address_bytes(a: Option<Address>) -> usize
    ensures { (result ≡ address_bytes a) × (result ≤ 4) }
{
    match a {
        None => 0,
        Some(_) => 4,
    }
}

// The bytes of a header, with HCRC.
pub fn header_length(fec: bool, address: Option<Address>) -> usize
    ensures { (result ≡ header_length fec address) × (result ≤ most_h) }
{
    let least = LEAST_H + address_bytes(address);
    if fec { least + 2 } else { least }
}

// Those that the settings call for.
fn header(g: Settings) -> usize
    ensures { (result ≡ h g) × (result ≤ most_h) }
{
    header_length(g.fec, g.address)
}

// Whether the settings are such as may be asked for: the MTU leaves room for a byte, and is no more than may be.
fn fits(g: Settings) -> bool
    ensures { result ≡ fit g }
{
    g.m <= MOST_M && (g.fec || g.m == 0) && header(g) < g.mtu && g.mtu <= MOST_MTU
}

// A length and the settings that it is cut at, both such as may be asked for.
#[derive(Clone, Copy)]
struct Cut {
    g: Settings,
    l: usize,
    ghost in_bounds: { (fit g ≡ true) × (least_l ≤ l) × (l ≤ most_l) },
}

impl Cut {
    // Of l bytes at g, or 40, 20, 22, the first that is due.
    fn of(g: Settings, l: usize) -> Result<Cut, Refusal>
        ensures made { IfOk result (λ cut. (cut.g ≡ g) × (cut.l ≡ l)) }
        ensures due { IfErr result (λ e. refused (number e) ≡ plan_of g l) }
    {
        if !fits(g) {
            return Err(Refusal::Settings);
        }
        if l < LEAST_L {
            return Err(Refusal::AfShort);
        }
        if MOST_L < l {
            return Err(Refusal::AfLength);
        }
        Ok(Cut { g, l })
    }

    // c: the chunks of the packet.
    fn chunks(self) -> usize
        ensures { (result ≡ c self.l) × (0 < result) × (result ≤ self.l) }
    {
        self.l.div_ceil(MOST_K)
    }

    // k: the data bytes of a chunk.
    fn per_chunk(self) -> usize
        ensures { (result ≡ k self.l) × (result ≤ most_k) }
    {
        self.l.div_ceil(self.chunks())
    }

    // L: the bytes that are cut.
    fn total(self) -> usize
        ensures { (result ≡ L self.g self.l) × (0 < result) × (result ≤ place) }
    {
        if self.g.fec {
            self.chunks() * (self.per_chunk() + PARITY)
        } else {
            self.l
        }
    }

    // By what 48 c is divided.
    fn divisor(self) -> usize
        ensures { result ≡ divisor self.g }
    {
        match self.g.rule {
            Rule::Older => self.g.m + 1,
            Rule::Newer => self.g.m,
        }
    }

    // How many lost fragments it is made to bear.
    fn assured(self) -> usize
        ensures { result ≡ assured self.g self.l }
    {
        match self.g.rule {
            Rule::Older => self.g.m,
            Rule::Newer => sure_newer(self.g.m, self.chunks()),
        }
    }

    // S: the most bytes of a fragment.
    fn room(self) -> usize
        ensures { (result ≡ S self.g self.l) × (0 < result) × (result ≤ most_mtu) }
    {
        let most = self.g.mtu - header(self.g);
        if self.g.m == 0 {
            return most;
        }
        let share = PARITY * self.chunks() / self.divisor();
        share.min(most)
    }

    // A figure of chunks is 0 without FEC.
    fn with_fec(self, x: usize) -> usize
        ensures { result ≡ cond self.g.fec x 0 }
    {
        if self.g.fec { x } else { 0 }
    }

    // All figures.
    fn figures(self) -> Figures
        ensures { (values_of result ≡ figures_of self.g self.l) × (result.f ≡ f self.g self.l) }
    {
        let c = self.chunks();
        let k = self.per_chunk();
        let total = self.total();
        let room = self.room();
        let f = total.div_ceil(room);
        Figures {
            c: self.with_fec(c),
            k: self.with_fec(k),
            z: self.with_fec(c * k - self.l),
            n: self.with_fec(k + PARITY),
            h: header(self.g),
            room,
            total,
            f,
            s: total.div_ceil(f),
            assured: self.assured(),
        }
    }
}

// How many lost fragments a cut of c chunks by the newer rule is made to bear.
fn sure_newer(m: usize, c: usize) -> usize
    ensures { result ≡ assured_by Newer m c }
{
    let four = m == 5 && 1 < c;
    if four { 4 } else { m }
}

// The plan of a cut of l bytes: its figures, or 40, 20, 22, 41, the first that is due.
pub fn plan(g: Settings, l: usize) -> Result<Figures, Refusal>
    ensures { number_of result ≡ plan_of g l }
{
    let figures = Cut::of(g, l)?.figures();
    if MOST_F < figures.f {
        return Err(Refusal::TooMany);
    }
    Ok(figures)
}
