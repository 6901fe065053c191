// A plain reference for runs to a destination (document 02, paper 7): the reversed map, the refusals, the cheapest walks over the map as it
// is, what the parents spell, and the steps of both heaps on the reversed map. The source of a case is the destination.
#![tactic(auto)]

pub mod refusals;
pub mod reversed;
pub mod run;
pub mod spelled;
pub mod walks;
