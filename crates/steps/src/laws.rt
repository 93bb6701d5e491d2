//! Laws of legal steps. Each is a function that does nothing: its clause is the law.

ghost use Rattle.std.specs.Prelude.{◌≡◌, ℕ, ◌+◌, ◌<◌, ◌≤◌, List, [], ◌∷◌, ◌++◌, Contains, IsPermutation, length, sum_by, true, false};
ghost use Rattle.script.specs.Items.{Numbered as NumberedItem, numbered as numbered_item, cancel, status};
ghost use Rattle.views.specs.Shown.{Shown};
ghost use Rattle.transcript.specs.declared.entry.Entry.{Entry};
ghost use Rattle.transcript.specs.declared.entry.Entry.TheVariants.{Refused, Found, SearchRefused};
ghost use Rattle.transcript.specs.declared.entry.Reason.TheVariants.{OutOfMemory};
ghost use Rattle.transcript.specs.declared.entry.SearchReason.TheVariants.{Cancelled, TooSlow};
ghost use Rattle.steps.specs.Rows.{Row, items_of, entries_of, is_sync, last_or, searches_of, count_failures};
ghost use Rattle.steps.specs.LegalRows.{Limits, IsLegalRow, AreInTurn};
ghost use Rattle.steps.specs.Steps.{RunState, OpenSearch, IsStep, IsOpenAt, IsFirst, Runs, status_now};
ghost use Rattle.steps.specs.StepRows.{AreRows, AreNext, searches_in};
ghost use Rattle.steps.specs.Entries.{count_of, failures_of, versions_of, searches_among, lines_in, HaveLines, takes_memory, HasTaken, is_of, IsInOrder};

/// What a source of loads can return.
pub trait Holding {
    /// The source can return these bytes for this path.
    ghost holds: { List ℕ → List ℕ → Type 0 };
}

/// Before the first item there are no rows.
pub fn first_rows<H: Holding>()
    ensures { (limits : Limits) (readers : ℕ) (s : RunState) → IsFirst s → AreRows H.holds limits readers s [] }
{}

/// A step from a state with rows leads to a state with rows, which are one more, or one of which has got its entry,
/// or both.
pub fn next_rows<H: Holding>()
    ensures { (limits : Limits) (readers : ℕ) (s : RunState) (rows : List Row) (taken : List NumberedItem) (written : List Entry) (s' : RunState)
        → AreRows H.holds limits readers s rows → IsStep H.holds limits readers s taken written s'
        → (rows' : List Row) × AreNext rows taken written rows' × AreRows H.holds limits readers s' rows' }
{}

/// Once no search is open, the rows are legal.
pub fn rows_are_legal<H: Holding>()
    ensures legal { (limits : Limits) (readers : ℕ) (s : RunState) (rows : List Row) → AreRows H.holds limits readers s rows → s.awaited ≡ []
        → (before : List Row) (row : Row) (after : List Row) → rows ≡ before ++ row ∷ after
        → IsLegalRow H.holds limits (record { readers = readers; before = before; row = row; after = after }) }
    ensures in_turn { (limits : Limits) (readers : ℕ) (s : RunState) (rows : List Row) → AreRows H.holds limits readers s rows → AreInTurn rows }
{}

/// A run has rows. They have its items, in their order, and its entries, though not in the order of writing. So they have
/// as many failed loads.
pub fn steps_have_rows<H: Holding>()
    ensures { (limits : Limits) (readers : ℕ) (from : RunState) (items : List NumberedItem) (entries : List Entry) (s : RunState)
        → IsFirst from → Runs H.holds limits readers from items entries s
        → (rows : List Row) × AreRows H.holds limits readers s rows × (items_of rows ≡ items) × IsPermutation (entries_of rows) entries
        × (count_failures rows ≡ failures_of entries) }
{}

/// Without readers, entries are written in the order of their items: a run's rows have them in the order of writing.
pub fn entries_keep_their_order<H: Holding>()
    ensures { (limits : Limits) (from : RunState) (items : List NumberedItem) (entries : List Entry) (s : RunState)
        → IsFirst from → Runs H.holds limits 0 from items entries s
        → (rows : List Row) × AreRows H.holds limits 0 s rows × (items_of rows ≡ items) × (entries_of rows ≡ entries)
        × (count_failures rows ≡ failures_of entries) }
{}

/// Each search has at most one entry at any time, and once no search is open it has one. As many are open as have none.
pub fn one_entry_each<H: Holding>()
    ensures one { (limits : Limits) (readers : ℕ) (from : RunState) (items : List NumberedItem) (entries : List Entry) (s : RunState)
        → IsFirst from → Runs H.holds limits readers from items entries s → s.awaited ≡ []
        → (number : ℕ) → 0 < number → number ≤ searches_among items → count_of number entries ≡ 1 }
    ensures at_most { (limits : Limits) (readers : ℕ) (from : RunState) (items : List NumberedItem) (entries : List Entry) (s : RunState)
        → IsFirst from → Runs H.holds limits readers from items entries s → (number : ℕ) → count_of number entries ≤ 1 }
    ensures without_entry { (limits : Limits) (readers : ℕ) (from : RunState) (items : List NumberedItem) (entries : List Entry) (s : RunState)
        → IsFirst from → Runs H.holds limits readers from items entries s
        → length s.awaited + sum_by searches_in entries ≡ searches_among items }
    ensures no_other { (limits : Limits) (readers : ℕ) (from : RunState) (items : List NumberedItem) (entries : List Entry) (s : RunState)
        → IsFirst from → Runs H.holds limits readers from items entries s
        → (count_of 0 entries ≡ 0) × ((number : ℕ) → searches_among items < number → count_of number entries ≡ 0) }
{}

/// All items before a search are taken before its entry is written. So what stands before the entry begins with what steps
/// write that take these items. Each of them has its entry there, unless it is a search that is open when the search is
/// taken, a sync, or a cancel, which may have none.
pub fn earlier_items_come_first<H: Holding>()
    ensures taken { (limits : Limits) (readers : ℕ) (from : RunState) (items : List NumberedItem) (entries : List Entry) (s : RunState)
        → IsFirst from → Runs H.holds limits readers from items entries s
        → (before : List NumberedItem) (search : NumberedItem) (after : List NumberedItem) → items ≡ before ++ search ∷ after
        → (front : List Entry) (entry : Entry) (back : List Entry) → entries ≡ front ++ entry ∷ back
        → is_of (searches_among before + 1) entry ≡ true → HasTaken H.holds limits readers from before front }
    ensures lines { (limits : Limits) (readers : ℕ) (from : RunState) (items : List NumberedItem) (entries : List Entry) (s : RunState)
        → IsFirst from → Runs H.holds limits readers from items entries s
        → (before : List NumberedItem) (search : NumberedItem) (after : List NumberedItem) → items ≡ before ++ search ∷ after
        → (front : List Entry) (entry : Entry) (back : List Entry) → entries ≡ front ++ entry ∷ back
        → is_of (searches_among before + 1) entry ≡ true
        → (lines others : List ℕ) × HaveLines before lines × (lines_in front ≡ lines ++ others) }
{}

/// An answer has a version that was published before it, and no reader's versions fall as its turns rise.
pub fn answers_are_in_order<H: Holding>()
    ensures { (limits : Limits) (readers : ℕ) (from : RunState) (items : List NumberedItem) (entries : List Entry) (s : RunState)
        → IsFirst from → Runs H.holds limits readers from items entries s
        → (before : List Entry) (number reader turn : ℕ) (answer : Shown) (after : List Entry)
        → entries ≡ before ++ Found number reader turn answer ∷ after → IsInOrder before reader turn answer }
{}

/// An answer is no older than what was published when its search was asked.
pub fn answers_are_not_older<H: Holding>()
    ensures { (limits : Limits) (readers : ℕ) (from : RunState) (items : List NumberedItem) (entries : List Entry) (s : RunState)
        → IsFirst from → Runs H.holds limits readers from items entries s
        → (search : NumberedItem) (s' : RunState) → searches_of search.item ≡ 1 → IsStep H.holds limits readers s (search ∷ []) [] s'
        → (items' : List NumberedItem) (entries' : List Entry) (s'' : RunState) → Runs H.holds limits readers s' items' entries' s''
        → (reader turn : ℕ) (answer : Shown) → Contains entries' (Found (searches_among items + 1) reader turn answer)
        → last_or 0 (versions_of entries) ≤ answer.version }
{}

/// Without readers an item is taken only when no search is open. So is a sync, whatever the readers.
pub fn nothing_is_open<H: Holding>()
    ensures alone { (limits : Limits) (s : RunState) (item : NumberedItem) (written : List Entry) (s' : RunState)
        → IsStep H.holds limits 0 s (item ∷ []) written s' → s.awaited ≡ [] }
    ensures at_sync { (limits : Limits) (readers : ℕ) (s : RunState) (item : NumberedItem) (written : List Entry) (s' : RunState)
        → is_sync item.item ≡ true → IsStep H.holds limits readers s (item ∷ []) written s' → s.awaited ≡ [] }
{}

/// The entries that are not of searches come in the order of their items. Each item has one, except searches and syncs; a
/// cancel has one or none.
pub fn lines_keep_their_order<H: Holding>()
    ensures { (limits : Limits) (readers : ℕ) (from : RunState) (items : List NumberedItem) (entries : List Entry) (s : RunState)
        → Runs H.holds limits readers from items entries s → HaveLines items (lines_in entries) }
{}

/// Of the items that are no searches, only puts, loads, removes and publishes are refused for memory.
pub fn memory_is_taken<H: Holding>()
    ensures { (limits : Limits) (readers : ℕ) (s : RunState) (item : NumberedItem) (line : ℕ) (s' : RunState)
        → IsStep H.holds limits readers s (item ∷ []) (Refused line OutOfMemory ∷ []) s' → takes_memory item.item ≡ true }
{}

/// A cancel of an open search refuses it at once. No other item does that, and no answer.
pub fn cancels_refuse_open_searches<H: Holding>()
    ensures refused { (limits : Limits) (readers : ℕ) (from : RunState) (items : List NumberedItem) (entries : List Entry) (s : RunState)
        → IsFirst from → Runs H.holds limits readers from items entries s
        → (place : ℕ) (search : OpenSearch) → IsOpenAt s place search → (line : ℕ) (written : List Entry) (s' : RunState)
        → IsStep H.holds limits readers s (numbered_item line (cancel search.number) ∷ []) written s'
        → written ≡ SearchRefused search.number Cancelled ∷ [] }
    ensures by_cancel { (limits : Limits) (readers : ℕ) (s : RunState) (taken : List NumberedItem) (number : ℕ) (s' : RunState)
        → IsStep H.holds limits readers s taken (SearchRefused number Cancelled ∷ []) s'
        → (line : ℕ) × (taken ≡ numbered_item line (cancel number) ∷ []) }
{}

/// Without a limit of time no search is too slow.
pub fn searches_have_time<H: Holding>()
    ensures { (limits : Limits) (readers : ℕ) (from : RunState) (items : List NumberedItem) (entries : List Entry) (s : RunState)
        → limits.timed ≡ false → Runs H.holds limits readers from items entries s
        → (number : ℕ) → Contains entries (SearchRefused number TooSlow) → ⊥ }
{}

/// A status shows the state in which it is taken.
pub fn statuses_are_exact<H: Holding>()
    ensures { (limits : Limits) (readers : ℕ) (s : RunState) (line : ℕ) (written : List Entry) (s' : RunState)
        → IsStep H.holds limits readers s (numbered_item line status ∷ []) written s'
        → (written ≡ status_now limits s line ∷ []) × (s' ≡ s) }
{}
