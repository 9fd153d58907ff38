// Theory only: which bytes give which answer or number, from a day's input to its output (specs/).
#![tactic(auto)]
