// All theorems in one place: the one function here ensures them, so that the check names them. It does nothing.
#![tactic(auto)]

ghost use Rattle.theorems.specs.Theorems.{Theorems};

pub fn theorems()
    ensures { Theorems }
{}
