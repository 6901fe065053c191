// What the trials share: generated maps and their holds, cases at the edge of every refusal, lists full of junk, answers beside those
// expected, and tallies of what was found.
#![tactic(auto)]

pub mod answers;
pub mod case;
pub mod edges;
pub mod holds;
pub mod lists;
pub mod maps;
pub mod random;
pub mod tallies;
