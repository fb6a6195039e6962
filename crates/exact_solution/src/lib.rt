// Definitions and theorems only: exact solutions in fractions.
#![tactic(auto)]
