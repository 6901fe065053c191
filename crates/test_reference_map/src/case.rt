// The heap of a run: with one level, or with two (document 01, "One-level heap" and "Two-level heap").
#[derive(Clone, Copy, PartialEq, Eq)]
pub enum Height {
    One,
    Two,
}

// A run's numbers and the words lent of each of its lists (document 01, "What the planner holds and leaves out", and for the holds document
// 02, paper 2).
#[derive(Clone, Copy)]
pub struct Case {
    pub nodes: u32,
    pub ceiling: u32,
    pub source: u32,
    pub segments: u32,
    pub starts: u32,
    pub heads: u32,
    pub costs: u32,
    pub holds: u32,
    pub distances: u32,
    pub parents: u32,
    pub roster: u32,
    pub work: u32,
}

// What a run counts, and the highest bucket that a removal used.
#[derive(Clone, Copy)]
pub struct Counts {
    pub reached: u64,
    pub buckets: u64,
    pub decreases: u64,
    pub placements: u64,
    pub looks: u64,
    pub reads: u64,
    pub highest: u64,
}
