//! A law of the sets. The function does nothing: its clause is the law.

ghost use Rattle.posting.specs.Laws.{PreparedSetsHaveRoom};

/// Sets are prepared for a number exactly if it is below the limit of each of them.
pub fn prepared_sets_have_room()
    ensures { PreparedSetsHaveRoom }
{}
