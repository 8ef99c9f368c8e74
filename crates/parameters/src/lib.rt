// The codes of the SS-301's functions, parameters and results, and the table of its parameters, 002's Appendix A: who may read, change and zero
// each, and how many bytes it has on the wire.
#![tactic(auto)]

pub mod code;
pub mod table;
