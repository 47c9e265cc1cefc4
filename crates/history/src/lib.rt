#![tactic(auto)]
// Lists of calls on one work area: the log, and what is found after every list. Definitions and laws only.
