// The contracts of the calls for other languages, which `kodarfi` has the code of: definitions and theorems, no code.
#![tactic(auto)]
