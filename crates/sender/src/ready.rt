// What is checked before anything is sent.
ghost use Rattle.std.specs.Prelude.{◌≡◌, true, false, length, Err};
ghost use Rattle.base_rules.specs.Answer.{answered};
ghost use Rattle.base_rules.specs.declared.Refusal.TheVariants as refusal;
ghost use Rattle.cut_rules.specs.Plan.{figures_of, number_of};
ghost use Rattle.sender_rules.specs.Calls.{packet_fault};

use base::Refusal;
use cut::{Figures, Settings};

// Whether a plan is refused for its settings.
fn unfit(planned: Result<Figures, Refusal>) -> bool
    ensures { (result ≡ true → planned ≡ Err refusal.Settings) × (result ≡ false → planned ≡ Err refusal.Settings → ⊥) }
{
    matches!(planned, Err(Refusal::Settings))
}

// The cut of a packet, or 40, the AF checks, 41, the first that is due. A plan knows the length alone: of its refusals only 40 comes before
// the AF checks, and behind them only 41 is left.
pub(crate) fn ready(g: Settings, packet: &[u8]) -> Result<Figures, Refusal>
    ensures { number_of result ≡ answered (packet_fault g packet.now) (figures_of g (length packet.now)) }
{
    let planned = cut::plan(g, packet.len());
    if unfit(planned) {
        return planned;
    }
    af::check(packet)?;
    planned
}
