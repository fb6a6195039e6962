// Definitions and theorems only. The code of the reckoning stands in the crates from `check_biased_rows` to `check_inverse_bounds`, which `check_lists` calls.
#![tactic(auto)]
