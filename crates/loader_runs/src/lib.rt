// What a loader collects from the lines it accepts. There is no code here: specs/ say what a run of lines is, proofs/ hold the theorems on it.
#![tactic(auto)]
