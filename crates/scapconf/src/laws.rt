//! What the definitions mean, each as the contract of a function with an empty body.
ghost use Rattle.std.specs.Prelude.{ℕ, List};
ghost use Rattle.scapconf.specs.Laws.{HasOneMeaning, HasOneFault, IsReadOrRefused};

/// No text says two settings.
pub fn texts_have_one_meaning()
    ensures { (text : List ℕ) → HasOneMeaning text }
{}

/// No text has two faults.
pub fn texts_have_one_fault()
    ensures { (text : List ℕ) → HasOneFault text }
{}

/// Each text says settings or has a fault, and none does both.
pub fn texts_are_read_or_refused()
    ensures { (text : List ℕ) → IsReadOrRefused text }
{}
