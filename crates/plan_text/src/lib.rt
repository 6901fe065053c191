// The one form in which a map is written as a planning file, as definitions, and that such a file is read back; no code. specs/ has the
// definitions, proofs/ the theorems.
#![tactic(auto)]
