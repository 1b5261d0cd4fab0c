// The theory of hulls with faces: support values, weights and rounding. It has no code; `faced` proves its kinds by it.
#![tactic(auto)]
