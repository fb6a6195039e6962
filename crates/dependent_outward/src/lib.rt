// Definitions and theorems only: the heights of two nets as doubles. The calls stand in the crates dependent_check and doubles_lists.
#![tactic(auto)]
