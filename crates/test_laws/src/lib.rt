// What follows from a test that passed: laws alone, and no code.

#![tactic(auto)]
