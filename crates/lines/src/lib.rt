//! What a line is: the lines of a body (`specs/Lines.antt`), and the greatest length of a line.
#![tactic(auto)]

ghost use Rattle.std.specs.Prelude.{◌≡◌};
ghost use Rattle.lines.specs.Lines.{greatest_line};

/// The greatest length of a line, in bytes, not counting its line feed (this program's choice).
pub const MAX_LINE: usize = 16_384;

/// The program and the definitions have the same greatest length of a line.
pub fn line_limit()
    ensures { MAX_LINE ≡ greatest_line }
{}
