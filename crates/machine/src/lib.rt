#![tactic(auto)]
// The published algorithm on a list of entries: definitions and laws only. The calls are proved to take its steps.
