// Theory only: lists of calls on one board, the day book that they draw, demand 3 and the balance as closed statements. The definitions are in specs/.
#![tactic(auto)]
