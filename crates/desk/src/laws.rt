//! Laws of refusals. The function does nothing: its clauses are the law.

ghost use Rattle.desk.specs.Laws.{PutFaultsAreOne, RemoveFaultsAreOne};

/// A put that a desk refuses has one fault, and so has a remove.
pub fn faults_are_one()
    ensures put { PutFaultsAreOne }
    ensures remove { RemoveFaultsAreOne }
{}
