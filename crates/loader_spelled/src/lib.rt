// Lines that spell forms. There is no code here: specs/ has the weights that stand for those left out, proofs/ the laws.
#![tactic(auto)]
