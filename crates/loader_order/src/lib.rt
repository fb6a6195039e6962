// The refusals at a loader in their order: definitions and theorems, no code.
#![tactic(auto)]
