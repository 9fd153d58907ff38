// Theory only: plans from a slot on if nothing more arrives, the fewest jobs that any of them gives up, and when all can be baked. The definitions are in
// specs/.
#![tactic(auto)]
