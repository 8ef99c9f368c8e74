// The log in memory as it lay before request 9, as definitions alone, and the claim that an old and a new log get the same answers from every call, C's and the
// console's lines included.

#![tactic(auto)]
