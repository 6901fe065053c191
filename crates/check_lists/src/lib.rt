// Numbers 6, 7 and 20, each of which looks at every word of one list (document 01, "What a call returns"; document 02, paper 2).
#![tactic(auto)]

pub mod limits;
pub mod starts;
