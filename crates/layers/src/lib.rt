// Layers over a kind of container: each over any lawful kind is a lawful kind again.
#![tactic(auto)]

pub mod allowance;
pub mod finishes;
pub mod laid;
