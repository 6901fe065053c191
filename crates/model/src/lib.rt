// Node numbers and arc numbers, kept apart, and the answers of checks and runs (document 01, "What the planner holds and leaves out" and
// "What a call returns").
#![tactic(auto)]

ghost use Rattle.std.specs.Prelude.{◌≡◌};
ghost use Rattle.model.specs.Answers.{number_of};

// A list of words is wrapped where it is read and unwrapped where it is stored: handing over an arc for a node does not compile.
#[derive(Clone, Copy, Debug, PartialEq, Eq)]
pub struct Node(pub u32);

#[derive(Clone, Copy, Debug, PartialEq, Eq)]
pub struct Arc(pub u32);

// The kinds of refusal, in the order of their numbers (document 01, "What a call returns"; document 02, paper 1: 18 and 19; paper 2: 20).
#[derive(Clone, Copy, Debug, PartialEq, Eq)]
pub enum Kind {
    NodeCount = 1,
    Ceiling,
    Source,
    ArcCount,
    StartCount,
    Starts,
    Head,
    Cost,
    SegmentCount,
    LentList,
    PlanLine,
    Tail,
    InputSize,
    Destination,
    NoParent,
    Parents,
    RouteRoom,
    RoadForm,
    RoadOrder,
    Hold,
}

impl Kind {
    // The number by which documents, C and the programs tell a kind.
    pub fn number(self) -> u32
        ensures { result ≡ number_of self }
    {
        self as u32
    }
}

// What a check finds, or the first of several in order: why a call is refused, and the place.
#[derive(Clone, Copy, Debug, PartialEq, Eq)]
pub struct Fault {
    pub kind: Kind,
    pub place: usize,
}

// The counts that a run gives back: a further count is a field here.
#[derive(Clone, Copy, Debug, PartialEq, Eq)]
pub struct Counts {
    pub decreases: u32,
    pub placements: u32,
    pub looks: u32,
    pub reads: u32,
}

// What an accepted run gives back.
#[derive(Clone, Copy, Debug, PartialEq, Eq)]
pub struct Run {
    pub reached: u32,
    pub buckets: u32,
    pub counts: Counts,
}
