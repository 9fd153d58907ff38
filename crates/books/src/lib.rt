// Theory only: books, schedules, rules, rivals and levels, with the limits lifted. The definitions are in specs/.
#![tactic(auto)]
