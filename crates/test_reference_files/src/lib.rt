// A plain reader of planning files and a plain printer of answers (document 01, "Planning file" and "What a call returns", and document 02,
// paper 2 for the holds and paper 3 for the reads).
#![tactic(auto)]

pub mod holds;
pub mod planfile;
pub mod printing;
pub mod reading;
