// Theory only: tests of the definitions. tests/definitions writes cases with answers made by the model, in a copy of this crate.
#![tactic(auto)]
