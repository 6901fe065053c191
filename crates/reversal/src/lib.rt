// The reversed map of a run to a destination, as definitions, and that its routes are those of the map read backwards; no code. specs/ has the
// definitions, proofs/ the theorems.
#![tactic(auto)]
