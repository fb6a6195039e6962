// Definitions and laws only: what margins, residuals and limits share on slices and biased rows.
#![tactic(auto)]
