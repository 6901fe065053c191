// Generated road files for the trial (document 02, paper 1): their numbers, and their bytes.
#![tactic(auto)]

pub mod rendering;
pub mod roads;
