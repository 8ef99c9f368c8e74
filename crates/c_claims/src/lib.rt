// The claims about the functions for C, over the definitions that their contracts cite: specs/ states them, and proofs/ proves each under its name.

#![tactic(auto)]
