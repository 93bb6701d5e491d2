//! Laws of the definitions: each is the contract of a function that does nothing.

ghost use Rattle.std.specs.Prelude.{◌≡◌, ◌≢◌, ℕ, List, Some};
ghost use Rattle.request.specs.Faults.{IsFirstFault, reason_of};
ghost use Rattle.request.specs.Find.{IsFindOf, Options};
ghost use Rattle.request.specs.Names.{option_named, text_of};

use crate::fault::FindFault;
use crate::names::OptionName;

/// A text asks for at most one thing.
pub fn one_find()
    ensures { (text : List ℕ) (options other : Options) (pattern another : List ℕ) → IsFindOf text options pattern → IsFindOf text other another
        → (options ≡ other) × (pattern ≡ another) }
{}

/// A text has at most one first fault, other than lack of memory: what is said of it is one.
pub fn one_first_fault()
    ensures { (text : List ℕ) (fault other : FindFault) → IsFirstFault text fault → IsFirstFault text other
        → fault ≢ FindFault.OutOfMemory → other ≢ FindFault.OutOfMemory → reason_of fault ≡ reason_of other }
{}

/// Every option is named by its word, so none is lost, and no two have one word.
pub fn every_option_is_named()
    ensures { (name : OptionName) → option_named (text_of name) ≡ Some name }
{}
