// What the program `poll` says on standard error: what failed and where to look then, what it asks, and how far it is.
#![tactic(auto)]

pub mod say;
