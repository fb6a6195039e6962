// The answer to a file, each refusal written out. There is no code here: specs/ has the statements, proofs/ the laws.
#![tactic(auto)]
