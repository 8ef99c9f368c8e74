// The order of polling: specs/ states what a log owes to the order in which its asks were made, and proofs/ proves it.

#![tactic(auto)]
