// Plain references for distances and parents, for refusals, and for routes (document 01, "Edges"): a Dijkstra over arrays, the cheapest
// walks by document 02, paper 2, the checks one by one, and the walk of a route.
#![tactic(auto)]

pub mod dijkstra;
pub mod refusals;
pub mod walk;
pub mod walks;
