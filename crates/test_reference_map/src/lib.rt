// What the references are written over, with no code, table or leaf of the planner (document 01, "Edges"): numbers that cannot overflow, the
// lists of a map, the numbers of a run, and a table with a number for each node.
#![tactic(auto)]

pub mod case;
pub mod map;
pub mod nodes;
pub mod refusal;
pub mod words;
