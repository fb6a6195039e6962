// The answer to a line at a loader, each refusal written out. There is no code here: specs/ has the statements, proofs/ the laws.
#![tactic(auto)]
