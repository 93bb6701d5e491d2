//! What is known of the documents that commands leave.

ghost use Rattle.std.specs.Prelude.{◌≡◌, List, [], ◌∷◌, ◌++◌, Contains, ◌↔◌};
ghost use Rattle.documents.specs.declared.command.Command.{Command as CommandValue};
ghost use Rattle.documents.specs.Documents.{Document, RisesByName, listed, documents_of, IsPutLast};
ghost use Rattle.documents.specs.State.{State, state_of, applied};

/// The documents are exactly the last `Put`s of names, and copies of what such `Put`s had left, on which no later command bears, each
/// once: see `IsPutLast`.
pub fn documents_are_puts()
    ensures which { (commands : List CommandValue) (d : Document) →
        Contains (listed (documents_of commands)) d ↔ IsPutLast commands d.name d.body }
    ensures once { (commands : List CommandValue) → RisesByName (listed (documents_of commands)) }
{}

/// The state after one more command is the state before, with that command applied.
pub fn state_follows_commands()
    ensures { (commands : List CommandValue) (command : CommandValue) →
        state_of (commands ++ command ∷ []) ≡ applied command (state_of commands) }
{}
