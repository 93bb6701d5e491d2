//! Some names and their contents, which never change.

ghost use Rattle.std.specs.Prelude.{◌≡◌, ◌<◌, ◌≤◌, ◌++◌, ℕ, true, map, filter, length, get_or, take, drop, IfOk, OnOk, IfSome};
ghost use Rattle.std.specs.List.{list_any};
ghost use Rattle.std.specs.List.Sorted.{IsStrictlyIncreasing};
ghost use Rattle.std.specs.Ordering.{nat_cmp};
ghost use Rattle.std.specs.Cmp.Lexicographic.{slice_cmp};
ghost use Rattle.std.specs.Arc.{arc_slice_items};
ghost use Rattle.prefixes.specs.Under.{begins_with, is_under_one};
ghost use Rattle.names.specs.Contents.{entry_of, entries_of, contents_of, is_since, has_one_of, is_long_copy};
ghost use Rattle.names.specs.Private.Entries.{Entry, begun, entries_bytes, with_prefix, is_before, passes, Falls, CutsAt, IsLastPass, LieWithin};
ghost use Rattle.names.specs.Private.Counted.{Counts};

use crate::chosen::Chosen;
use crate::content::{Content, Named};
use crate::draft::Draft;
use crate::edge::Edge;
use crate::numbers::{between, is_among};
use crate::texts::Texts;
use crate::under::Under;
use std::alloc::{AllocError, Global};
use std::cmp::Ordering;
use std::marker::Model;
use std::sync::{Arc, ArcSlice};

/// What chunks with the same names and contents share, whatever prefix each has.
#[derive(Drop)]
struct Body {
    /// What comes behind the prefix in each name.
    suffixes: Texts,
    contents: Vec<Content>,
    /// The total length of the bodies.
    bytes: u64,
    /// The least number of a content.
    oldest: u32,
    /// The greatest number of a content.
    newest: u32,
}

/// Some entries, at least one. It costs two handles to have it twice, and a new prefix more to have it under other names.
///
/// Contracts see the list of the entries.
#[derive(Drop)]
pub(crate) struct Chunk {
    /// What all names begin with.
    prefix: ArcSlice<u8>,
    body: Arc<Body>,
}

impl Model for Chunk {
    ghost use Rattle.std.specs.Prelude.{List, ℕ};
    ghost use Rattle.std.specs.Arc.{arc_value, arc_slice_items};
    ghost use Rattle.names.specs.declared.content.Content.{Content};
    ghost use Rattle.names.specs.Private.Entries.{Entry, pairs, with_prefix, IsBody};

    ghost Value = { List Entry };

    ghost view = { λ c. pairs (with_prefix (arc_slice_items c.prefix) (arc_value c.body).suffixes) (arc_value c.body).contents.items };

    ghost invariant = { λ c. IsBody (with_prefix (arc_slice_items c.prefix) (arc_value c.body).suffixes) (arc_value c.body).contents.items (arc_value c.body).bytes (arc_value c.body).oldest (arc_value c.body).newest };
}

impl Chunk {
    /// The chunk of these entries. An `Err` means that memory ran out.
    pub(crate) fn of(alloc: Global, draft: Draft) -> Result<Chunk, AllocError>
        requires { 0 < length draft }
        ensures { IfOk result (λ chunk. chunk ≡ draft) }
    {
        let Draft {
            stem,
            rests,
            contents,
            bytes,
        } = draft;
        let (prefix, suffixes) = shortened(alloc, stem, rests)?;
        let (oldest, newest) = range_of(&contents);
        let body = Body {
            suffixes,
            contents,
            bytes,
            oldest,
            newest,
        };
        let body = Arc::new(alloc, body)?;
        Ok(Chunk { prefix, body })
    }

    /// Another handle to the chunk. An `Err` means that it has too many handles.
    pub(crate) fn share(&self) -> Result<Chunk, AllocError>
        ensures { IfOk result (λ chunk. chunk ≡ self.now) }
    {
        Ok(Chunk {
            prefix: self.prefix.clone()?,
            body: Arc::try_clone(&self.body)?,
        })
    }

    /// The same entries with this text in place of so many first bytes of their names, if the prefix has so many. An `Err`
    /// means that memory ran out.
    pub(crate) fn begun(
        &self,
        alloc: Global,
        count: usize,
        beginning: &[u8],
    ) -> Result<Option<Chunk>, AllocError>
        ensures { IfOk result (λ found. IfSome found (λ chunk. chunk ≡ map (begun count beginning.now) self.now)) }
    {
        let prefix = self.prefix.as_slice();
        if prefix.len() < count {
            return Ok(None);
        }
        let prefix = begun_text(alloc, beginning, count, prefix)?;
        let body = Arc::try_clone(&self.body)?;
        Ok(Some(Chunk { prefix, body }))
    }

    /// How many entries it has.
    pub(crate) fn len(&self) -> usize
        ensures len { result ≡ length self.now }
        ensures some { 0 < result }
    {
        self.body.contents.len()
    }

    /// The place of the first entry.
    pub(crate) fn first(&self) -> usize
        ensures place { result ≡ 0 }
        ensures inside { result < length self.now }
    {
        let _ = &self.body;
        0
    }

    /// The total length of the bodies, in bytes.
    pub(crate) fn bytes(&self) -> u64
        ensures { result ≡ entries_bytes self.now }
    {
        self.body.bytes
    }

    /// The name at a place, in two parts.
    pub(crate) fn name(&self, at: usize) -> (&[u8], &[u8])
        requires { at < length self.now }
        ensures { (d : Entry) → (get_or self.now at d).0 ≡ result.0.now ++ result.1.now }
    {
        (self.prefix.as_slice(), self.body.suffixes.at(at))
    }

    /// What all names begin with, and what comes behind that in each.
    pub(crate) fn parts(&self) -> (&[u8], &Texts)
        ensures { with_prefix result.0.now result.1.now ≡ map (λ e. e.0) self.now }
    {
        (self.prefix.as_slice(), &self.body.suffixes)
    }

    /// The name at a place, in one piece. An `Err` means that memory ran out.
    pub(crate) fn text(&self, alloc: Global, at: usize) -> Result<Vec<u8>, AllocError>
        requires { at < length self.now }
        ensures { IfOk result (λ text. (d : Entry) → (get_or self.now at d).0 ≡ text.items) }
    {
        let (prefix, suffix) = self.name(at);
        let mut text = Vec::from_slice(alloc, prefix)?;
        text.extend_from_slice(suffix)?;
        Ok(text)
    }

    /// The content at a place.
    pub(crate) fn content(&self, at: usize) -> &Content
        requires { at < length self.now }
        ensures { (d : Entry) → result.now ≡ (get_or self.now at d).1 }
    {
        &self.body.contents[at]
    }

    /// The name and the content at a place.
    fn named(&self, at: usize) -> Named<'_>
        requires { at < length self.now }
        ensures { (d : Entry) → get_or self.now at d ≡ entry_of result }
    {
        let (beginning, rest) = self.name(at);
        Named {
            beginning,
            rest,
            content: self.content(at),
        }
    }

    /// Adds the entries. An `Err` means that memory ran out.
    pub(crate) fn push_entries<'a>(&'a self, found: &mut Vec<Named<'a>>) -> Result<(), AllocError>
        ensures { OnOk result (entries_of found.new.items ≡ entries_of found.old.items ++ self.now) }
    {
        for at in 0..self.len() {
            let named = self.named(at);
            found.push(named)?;
        }
        Ok(())
    }

    /// Between which numbers those of the contents lie.
    fn range(&self) -> (u32, u32)
        ensures { LieWithin result.0 result.1 (map (λ e. e.1) self.now) }
    {
        (self.body.oldest, self.body.newest)
    }

    /// Adds the contents whose numbers are at least this. An `Err` means that memory ran out.
    pub(crate) fn push_since<'a>(
        &'a self,
        number: u32,
        found: &mut Vec<&'a Content>,
    ) -> Result<(), AllocError>
        ensures { OnOk result (contents_of found.new.items ≡ contents_of found.old.items ++ filter (is_since number) (map (λ e. e.1) self.now)) }
    {
        let (_, newest) = self.range();
        if newest < number {
            return Ok(());
        }
        for at in 0..self.len() {
            let content = self.content(at);
            if content.number < number {
                continue;
            }
            found.push(content)?;
        }
        Ok(())
    }

    /// Those of the numbers, which rise, that contents of the chunk may have.
    pub(crate) fn near<'a>(&self, numbers: &'a [u32]) -> &'a [u32]
        requires { IsStrictlyIncreasing numbers.now }
        ensures rising { IsStrictlyIncreasing result.now }
        ensures same { filter (has_one_of result.now) self.now ≡ filter (has_one_of numbers.now) self.now }
    {
        let (oldest, newest) = self.range();
        between(numbers, oldest, newest)
    }

    /// Counts the entries whose contents have one of these numbers, which rise, and names those of them that are asked for. An `Err`
    /// means that memory ran out.
    pub(crate) fn choose<'a>(
        &'a self,
        numbers: &[u32],
        most: usize,
        under: &mut Under<'_>,
        chosen: &mut Chosen<'a>,
    ) -> Result<(), AllocError>
        requires { IsStrictlyIncreasing numbers.now }
        ensures same { under.new ≡ under.old }
        ensures counts { OnOk result (Counts under.old most (filter (has_one_of numbers.now) self.now) chosen.old chosen.new) }
    {
        if numbers.is_empty() {
            return Ok(());
        }
        let known = self.is_under(under);
        for at in 0..self.len() {
            if !is_among(numbers, self.content(at).number) {
                continue;
            }
            chosen.add(self.named(at), most, known, under)?;
        }
        Ok(())
    }

    /// Whether all names are known to begin with one of the prefixes.
    fn is_under(&self, under: &Under<'_>) -> bool
        ensures { result ≡ true → (at : ℕ) (d : Entry) → at < length self.now → is_under_one under.now (get_or self.now at d).0 ≡ true }
    {
        under.has_all(self.prefix.as_slice())
    }

    /// Whether some name from one place on and before another one has more than `most` bytes with `to` in place of `from`, with which
    /// all these begin.
    pub(crate) fn has_long_copy(
        &self,
        at: usize,
        end: usize,
        from: &[u8],
        to: &[u8],
        most: usize,
    ) -> bool
        requires order { at ≤ end }
        requires inside { end ≤ length self.now }
        ensures { result ≡ list_any (λ e. is_long_copy most from.now to.now e.0) (drop at (take end self.now)) }
    {
        for place in at..end {
            let (prefix, suffix) = self.name(place);
            if is_long_copy(prefix, suffix, from, to, most) {
                return true;
            }
        }
        false
    }

    /// How the name at a place is ordered beside a text.
    pub(crate) fn compare(&self, at: usize, text: &[u8]) -> Ordering
        requires { at < length self.now }
        ensures { (d : Entry) → result ≡ slice_cmp nat_cmp (get_or self.now at d).0 text.now }
    {
        let (prefix, suffix) = self.name(at);
        compared(prefix, suffix, text)
    }

    /// Whether the name at a place begins with a text.
    pub(crate) fn begins(&self, at: usize, text: &[u8]) -> bool
        requires { at < length self.now }
        ensures { (d : Entry) → result ≡ begins_with text.now (get_or self.now at d).0 }
    {
        let (prefix, suffix) = self.name(at);
        begin_with(prefix, suffix, text)
    }

    /// Whether the name at a place lies before the edge at a text.
    pub(crate) fn is_before(&self, at: usize, edge: Edge, text: &[u8]) -> bool
        requires { at < length self.now }
        ensures { (d : Entry) → result ≡ is_before edge text.now (get_or self.now at d).0 }
    {
        match edge {
            Edge::Before => self.compare(at, text).is_lt(),
            Edge::After => self.compare(at, text).is_le(),
            Edge::AfterUnder => self.compare(at, text).is_lt() || self.begins(at, text),
        }
    }

    /// Whether the last name lies before the edge at a text.
    pub(crate) fn last_is_before(&self, edge: Edge, text: &[u8]) -> bool
        ensures { IsLastPass (passes edge text.now) self.now result }
    {
        self.is_before(self.len() - 1, edge, text)
    }

    /// The place of the edge at a text: how many names lie before it.
    pub(crate) fn place(&self, edge: Edge, text: &[u8]) -> usize
        requires { Falls (passes edge text.now) self.now }
        ensures { CutsAt (passes edge text.now) self.now result }
    {
        let mut low = 0;
        let mut high = self.len();
        while low < high {
            let middle = low + (high - low) / 2;
            if self.is_before(middle, edge, text) {
                low = middle + 1;
            } else {
                high = middle;
            }
        }
        low
    }

    /// The same, found in one step if all names lie before the edge.
    pub(crate) fn place_or_end(&self, edge: Edge, text: &[u8]) -> usize
        requires { Falls (passes edge text.now) self.now }
        ensures { CutsAt (passes edge text.now) self.now result }
    {
        if self.last_is_before(edge, text) {
            return self.len();
        }
        self.place(edge, text)
    }
}

/// The least and the greatest number of these contents, if there are some.
fn range_of(contents: &[Content]) -> (u32, u32)
    ensures { LieWithin result.0 result.1 contents.now }
{
    let mut oldest = u32::MAX;
    let mut newest: u32 = 0;
    for content in contents {
        oldest = oldest.min(content.number);
        newest = newest.max(content.number);
    }
    (oldest, newest)
}

/// How the name of these two parts is ordered beside a text.
fn compared(prefix: &[u8], suffix: &[u8], text: &[u8]) -> Ordering
    ensures { result ≡ slice_cmp nat_cmp (prefix.now ++ suffix.now) text.now }
{
    let same = prefix.len().min(text.len());
    match prefix.cmp(&text[..same]) {
        Ordering::Equal => suffix.cmp(&text[same..]),
        other => other,
    }
}

/// Whether the name of these two parts begins with a text.
fn begin_with(prefix: &[u8], suffix: &[u8], text: &[u8]) -> bool
    ensures { result ≡ begins_with text.now (prefix.now ++ suffix.now) }
{
    if text.len() <= prefix.len() {
        return prefix.starts_with(text);
    }
    text.starts_with(prefix) && suffix.starts_with(&text[prefix.len()..])
}

/// Whether the name of these two parts has more than `most` bytes with `to` in place of `from`.
fn is_long_copy(prefix: &[u8], suffix: &[u8], from: &[u8], to: &[u8], most: usize) -> bool
    ensures { result ≡ is_long_copy most from.now to.now (prefix.now ++ suffix.now) }
{
    let rest = (prefix.len() + suffix.len()).saturating_sub(from.len());
    if to.len() > most {
        return true;
    }
    rest > most - to.len()
}

/// A text, and behind it another one without so many first bytes.
fn begun_text(
    alloc: Global,
    beginning: &[u8],
    count: usize,
    text: &[u8],
) -> Result<ArcSlice<u8>, AllocError>
    requires { count ≤ length text.now }
    ensures { IfOk result (λ begun. arc_slice_items begun ≡ beginning.now ++ drop count text.now) }
{
    let mut bytes = Vec::from_slice(alloc, beginning)?;
    bytes.extend_from_slice(&text[count..])?;
    ArcSlice::from_vec(bytes)
}

/// What the names begin with that begin with the stem and go on with the rests, and what is left of them. The names rise, so it is
/// what the first one and the last one begin with.
fn shortened(
    alloc: Global,
    stem: Vec<u8>,
    rests: Texts,
) -> Result<(ArcSlice<u8>, Texts), AllocError>
    requires { 0 < length rests }
    ensures { IfOk result (λ parts. with_prefix (arc_slice_items parts.0) parts.1 ≡ with_prefix stem.items rests) }
{
    let more = Vec::from_slice(alloc, common(rests.at(0), rests.at(rests.len() - 1)))?;
    if more.is_empty() {
        return Ok((ArcSlice::from_vec(stem)?, rests));
    }
    match without(alloc, &rests, more.as_slice())? {
        Some(suffixes) => {
            let mut prefix = stem;
            prefix.extend_from_slice(more.as_slice())?;
            Ok((ArcSlice::from_vec(prefix)?, suffixes))
        }
        None => Ok((ArcSlice::from_vec(stem)?, rests)),
    }
}

/// What both texts begin with.
fn common<'a>(one: &'a [u8], other: &[u8]) -> &'a [u8] {
    let mut same = 0;
    while same < one.len() && same < other.len() && one[same] == other[same] {
        same += 1;
    }
    &one[..same]
}

/// The names without this prefix, if all begin with it.
fn without(alloc: Global, names: &Texts, prefix: &[u8]) -> Result<Option<Texts>, AllocError>
    ensures { IfOk result (λ found. IfSome found (λ suffixes. with_prefix prefix.now suffixes ≡ names.now)) }
{
    let mut suffixes = Texts::new(alloc);
    for at in 0..names.len() {
        let name = names.at(at);
        if !name.starts_with(prefix) {
            return Ok(None);
        }
        suffixes = suffixes.with(&name[prefix.len()..], &[], &[])?;
    }
    Ok(Some(suffixes))
}
