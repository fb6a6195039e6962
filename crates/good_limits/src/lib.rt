// How good limits are, of one problem and its proposal: definitions and theorems, no code.
#![tactic(auto)]
