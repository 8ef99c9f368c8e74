// The claims that the product makes: specs/ states them, a file a demand, and proofs/ proves each under its name.

#![tactic(auto)]
