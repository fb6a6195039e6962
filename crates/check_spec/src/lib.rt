// Definitions and theorems only: what a check on lists says and leaves. The code stands in the crate check_lists.
#![tactic(auto)]
