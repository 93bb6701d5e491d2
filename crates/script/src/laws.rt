//! Laws of scripts. Each is a function that does nothing: its clause is the law.

ghost use Rattle.std.specs.Prelude.{◌≡◌, ℕ, List};
ghost use Rattle.script.specs.Items.{Numbered as NumberedItem, ItemsFrom};
ghost use Rattle.script.specs.Line.{Says, SayTheSame};
ghost use Rattle.script.specs.declared.line.Line.{Line as LineValue};

use crate::line::MAX_SCRIPT;

/// A script has at most 67,108,864 bytes (this program's choice).
pub fn script_limit()
    ensures { MAX_SCRIPT ≡ 67108864 }
{}

/// A text has at most one list of items, whatever the number of its first line.
pub fn items_are_one()
    ensures { (n : ℕ) (text : List ℕ) (items items' : List NumberedItem) → ItemsFrom n text items → ItemsFrom n text items' → items ≡ items' }
{}

/// Each text has items, whatever the number of its first line.
pub fn texts_have_items()
    ensures { (n : ℕ) (text : List ℕ) → (items : List NumberedItem) × ItemsFrom n text items }
{}

/// A line says one thing.
pub fn lines_say_one_thing()
    ensures { (line : List ℕ) (said said' : LineValue) → Says line said → Says line said' → SayTheSame said said' }
{}
