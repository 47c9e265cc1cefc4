#![tactic(auto)]
// The published algorithm, and that the machine follows it. No functions.
