#![tactic(auto)]
// What a sound area encodes: definitions and laws only. The calls rest on them.
