// The theory of tight slots and no-regret choices, by heights: proofs only, no code.
#![tactic(auto)]
