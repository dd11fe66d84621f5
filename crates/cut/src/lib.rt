// The cut of an AF packet into PFT fragments (clause 7): its settings, its sizes and its plan. What the specs say of interleaving
// and of losses, the crate above does.
#![tactic(auto)]

mod plans;

pub use cut_rules::{Address, Figures, LEAST_H, MOST_H, Rule, Settings};
pub use plans::{header_length, house, plan, two_losses};
