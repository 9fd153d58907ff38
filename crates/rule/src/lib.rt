// Theory only: the no-regret rule. The definitions and the worked boards are in specs/, their laws in proofs/.
#![tactic(auto)]
