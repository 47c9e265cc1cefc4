#![tactic(auto)]
// Soundness: definitions and laws only. `check` stands in the crate `checking`.
