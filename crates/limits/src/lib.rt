// What the limits of a board tell, for calls that look at these alone. Theory: see specs and proofs.
#![tactic(auto)]
