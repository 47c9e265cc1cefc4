#![tactic(auto)]
// The program as a list of calls: those it makes on a job file, and what is found after them. Definitions and laws only.
