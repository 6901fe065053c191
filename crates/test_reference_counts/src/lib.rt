// A plain reference for what both heaps count (document 01, "The tallies", and document 02, paper 3): their formulas, and a recount of their
// steps.
#![tactic(auto)]

pub mod heap;
pub mod recount;
