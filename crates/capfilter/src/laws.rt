//! What the definitions mean, each as the contract of a function with an empty body.
ghost use Rattle.std.specs.Prelude.{ℕ, List};
ghost use Rattle.capfilter.specs.Canonical.{canonical};
ghost use Rattle.capfilter.specs.Faults.{Reads};
ghost use Rattle.capfilter.specs.Laws.{HasOneTree, HasOneFault, IsReadOrRefused, IsWithinLimits, AgreesByBits};

use crate::Filter;

/// The canonical text of a filter is a filter of the same tree, where it is within the limits of tokens and levels.
pub fn canonical_texts_read_back(filter: &Filter)
    ensures { IsWithinLimits filter.now → Reads (canonical filter.now) filter.now }
{
    filter.known();
}

/// No text has two trees, whatever brackets it has.
pub fn texts_have_one_tree()
    ensures { (text : List ℕ) → HasOneTree text }
{}

/// No text has two faults.
pub fn texts_have_one_fault()
    ensures { (text : List ℕ) → HasOneFault text }
{}

/// Each text has a tree or a fault, and none has both.
pub fn texts_are_read_or_refused()
    ensures { (text : List ℕ) → IsReadOrRefused text }
{}

/// A net looks at the first bits of an address, and at no others.
pub fn nets_look_at_first_bits()
    ensures { (n : ℕ) (a b : List ℕ) → AgreesByBits n a b }
{}
