//! Laws of the analysis. Each function does nothing: its clause is the law.

ghost use Rattle.trigram.specs.Laws.{KnownTextsAreTheWords, MatchingLineMeetsCondition, SetsHaveEachTextOnce, TrigramsAreHeld};

/// If the texts of a proper tree are known, they are exactly its words with each anchor replaced by the empty text.
pub fn known_texts_are_the_words()
    ensures { KnownTextsAreTheWords }
{}

/// If a line of a body contains a match, the trigrams of the body meet the condition of the pattern.
pub fn matching_line_meets_condition()
    ensures { MatchingLineMeetsCondition }
{}

/// `has_all_trigrams` is true of a set and a text exactly if each trigram of the text is in the set.
pub fn trigrams_are_held()
    ensures { TrigramsAreHeld }
{}

/// A set made from a list of texts has the texts of the list and no others, each once.
pub fn sets_have_each_text_once()
    ensures { SetsHaveEachTextOnce }
{}
