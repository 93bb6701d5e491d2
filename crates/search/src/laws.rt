//! What is known of answers.

ghost use Rattle.std.specs.Prelude.{◌≡◌, List, length, Contains, ◌↔◌};
ghost use Rattle.documents.specs.declared.command.Command.{Command as CommandValue};
ghost use Rattle.documents.specs.State.{state_of};
ghost use Rattle.prepare.specs.Pattern.{Pattern};
ghost use Rattle.views.specs.Found.{Hit, Answer};
ghost use Rattle.views.specs.Scan.{IsAnswerOf};
ghost use Rattle.search.specs.Commands.{IsHitOfPut};

/// The answer for the state that commands leave follows from the commands: its version is their number, and its hits
/// are exactly the lines that the pattern asks for in the last `Put` of each name or in a copy, if no later command bears on it.
pub fn answers_follow_commands()
    ensures version { (commands : List CommandValue) (pattern : Pattern) (answer : Answer) →
        IsAnswerOf (state_of commands) pattern answer → answer.version ≡ length commands }
    ensures hits { (commands : List CommandValue) (pattern : Pattern) (answer : Answer) (found : Hit) →
        IsAnswerOf (state_of commands) pattern answer → Contains answer.hits found ↔ IsHitOfPut commands pattern found }
{}
