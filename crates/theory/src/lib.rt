// The steps of documents 000 and 01 as definitions, and the theorems about them; no code but the kinds of heap. specs/ has the definitions,
// proofs/ the theorems.
#![tactic(auto)]

// One level, or two with so many segments to a bucket (document 01, "One-level heap" and "Two-level heap").
#[derive(Clone, Copy, Debug, PartialEq, Eq)]
pub enum Levels {
    One,
    Two { segments: u32 },
}
