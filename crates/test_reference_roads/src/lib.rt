// A plain reader of road files (document 02, paper 1): its lines one after the other, then the arcs of each node taken in the order of the
// file.
#![tactic(auto)]

pub mod arcs;
pub mod lines;
pub mod roadfile;
