// The families of planning files: how many each has, and the file of a number.
use crate::making;
use test_reference_files::printing::Text;

#[derive(Clone, Copy)]
pub enum Family {
    Whole,
    Damaged,
    WithHolds,
    SumsAtEdge,
    DamagedWithHolds,
}

impl Family {
    pub fn name(self) -> &'static [u8] {
        match self {
            Family::Whole => b"planning files",
            Family::Damaged => b"damaged planning files",
            Family::WithHolds => b"planning files with holds",
            Family::SumsAtEdge => b"planning files with sums at an edge",
            Family::DamagedWithHolds => b"damaged planning files with holds",
        }
    }

    // With holds, ten files for each kind of map and rule of holds; the sums, one for each of these, each of five arcs, and a sum at the
    // ceiling or above.
    pub fn count(self) -> u32 {
        match self {
            Family::Whole => 300,
            Family::Damaged => 2000,
            Family::WithHolds => 600,
            Family::SumsAtEdge => 480,
            Family::DamagedWithHolds => 4000,
        }
    }

    pub fn file_of(self, number: u32) -> Text {
        match self {
            Family::Whole => making::whole(number, false),
            Family::Damaged => making::damaged(number),
            Family::WithHolds => making::with_holds(number),
            Family::SumsAtEdge => making::with_sum(number),
            Family::DamagedWithHolds => making::damaged_with_holds(number),
        }
    }
}
