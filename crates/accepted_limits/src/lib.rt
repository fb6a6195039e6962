// The limits of every accepted check are good, on lists, by half, through a loader, of a file, from C and of two nets: definitions and theorems, no code.
#![tactic(auto)]
