// The numbers of a run: how its work words are laid out, its tallies, and what changes from step to step.
#![tactic(auto)]

ghost use Rattle.std.specs.Prelude.{◌≡◌, ◌<◌, ◌+◌};
ghost use Rattle.state.specs.Tallies.{Event, insertion, decrease, after_event};

// n, B, the segments of a bucket below the last (1 for one level), and the segments of all buckets.
#[derive(Clone, Copy)]
pub struct Layout {
    pub nodes: usize,
    pub buckets: usize,
    pub segments: usize,
    pub slots: usize,
}

// The counts of a run (document 01, "The tallies"; document 02, paper 3: reads). In this order the compiler keeps them out of memory
// (docs/DECISIONS.md).
#[derive(Clone, Copy, Default)]
pub struct Tally {
    pub looks: u32,
    pub shifts: u32,
    pub insertions: u32,
    pub reads: u32,
    pub decreases: u32,
}

// The distance scanned last, how many labelled nodes have it, how many nodes are scanned, and the tallies.
#[derive(Clone, Copy, Default)]
pub struct State {
    pub front: u32,
    pub current: u32,
    pub reached: u32,
    pub tally: Tally,
}

// One method for each event (document 01, "The tallies"), by value, so that no function of the core holds a tally by reference beside the
// lists that it is lent (docs/DECISIONS.md).
impl Tally {
    pub fn inserted(self) -> Tally
        requires { self.insertions < 4294967295 }
        ensures { result ≡ after_event insertion self }
    {
        Tally {
            insertions: self.insertions + 1,
            ..self
        }
    }

    pub fn decreased(self) -> Tally
        requires { self.decreases < 4294967295 }
        ensures { result ≡ after_event decrease self }
    {
        Tally {
            decreases: self.decreases + 1,
            ..self
        }
    }

    pub fn shifted(self) -> Tally
        requires { self.shifts < 4294967295 }
        ensures { result ≡ after_event (Event.shifts 1) self }
    {
        Tally {
            shifts: self.shifts + 1,
            ..self
        }
    }

    pub fn looked(self, looks: u32) -> Tally
        requires { self.looks + looks < 4294967296 }
        ensures { result ≡ after_event (Event.looks looks) self }
    {
        Tally {
            looks: self.looks + looks,
            ..self
        }
    }

    pub fn read(self, reads: u32) -> Tally
        requires { self.reads + reads < 4294967296 }
        ensures { result ≡ after_event (Event.reads reads) self }
    {
        Tally {
            reads: self.reads + reads,
            ..self
        }
    }
}
