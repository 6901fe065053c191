// What the programs that work through rows of cases share: rows taken apart, maps and files made of them, sums of lists.
#![tactic(auto)]

pub mod bytes;
pub mod lists;
pub mod map;
pub mod printing;
pub mod rows;
