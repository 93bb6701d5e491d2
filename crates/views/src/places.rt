//! The hits of documents that were searched together, as places in the documents' bodies.

ghost use Rattle.std.specs.Prelude.{◌≡◌, ◌<◌, ◌≤◌, [], length, take, drop, option_map, slice_get, MatchBool};
ghost use Rattle.std.specs.Iterator.{YieldsFirstBy, item_count};
ghost use Rattle.views.specs.Hits.{hit_of};
ghost use Rattle.views.specs.Places.{hit_at, IsPlaced};

use documents::{Name, SharedDocument};
use std::alloc::Global;
use std::fmt;
use std::fmt::{Debug, Formatter};
use std::marker::Model;

/// What a line has beside its name and its text: two colons, a line feed, and a number of at most ten digits.
const BESIDE: usize = 13;

/// A line that a search found.
#[derive(Clone, Copy, Debug)]
pub struct Hit<'a> {
    /// The name of the line's document.
    pub name: &'a Name,
    /// The number of the line in its document, counted from 1.
    pub line: u32,
    /// The bytes of the line, without its line feed. They are a part of the document's body.
    pub text: &'a [u8],
}

impl Hit<'_> {
    /// A number of bytes that is enough for its line, with its name and its number.
    pub fn size(&self) -> usize
        ensures { length self.now.text.now ≤ result }
    {
        let name = self.name.as_bytes().len();
        name.saturating_add(self.text.len()).saturating_add(BESIDE)
    }
}

/// The place of a line in the body of a document.
#[derive(Clone, Copy)]
pub struct Place {
    /// Which of the documents it is, counted from 0.
    pub document: u32,
    /// The number of the line, counted from 1.
    pub line: u32,
    /// Where the line starts in the body, as an offset in bytes.
    pub start: u32,
    /// Where it ends there, without its line feed, as an offset in bytes.
    pub end: u32,
}

/// The hits of documents that were searched together: the documents that have any, and the places of the lines in them.
///
/// Contracts see it as the hits.
#[derive(Drop)]
pub struct Places {
    /// The documents, each once. Their names and bodies are shared.
    pub documents: Vec<SharedDocument>,
    /// The places, in the order of the hits.
    pub places: Vec<Place>,
}

impl Model for Places {
    ghost use Rattle.std.specs.Prelude.{List, All};
    ghost use Rattle.views.specs.Found.{Hit as HitValue};

    ghost Value = { List HitValue };

    ghost use Rattle.views.specs.Places.{hits_at, IsPlaced};

    ghost view = { λ p. hits_at p.documents.items p.places.items };

    ghost invariant = { λ p. All (IsPlaced p.documents.items) p.places.items };
}

impl Places {
    /// No hits.
    pub fn new(alloc: Global) -> Places
        ensures { result ≡ [] }
    {
        Places {
            documents: Vec::new(alloc),
            places: Vec::new(alloc),
        }
    }

    /// The hits, one after another.
    pub fn lines(&self) -> Lines<'_>
        ensures { result ≡ self.now }
    {
        Lines {
            documents: self.documents.as_slice(),
            places: self.places.as_slice(),
        }
    }

    /// Keeps the first `most` of the hits.
    pub fn truncate(&mut self, most: usize)
        ensures { self.new ≡ take most self.old }
    {
        self.places.truncate(most);
    }
}

impl Debug for Places {
    fn fmt<W: fmt::Write>(&self, f: &mut Formatter<W>) -> fmt::Result {
        f.debug_list().entries(self.lines()).finish()
    }
}

/// Hits of documents that were searched together, one after another.
///
/// Contracts see it as those that are left.
#[derive(Drop)]
pub struct Lines<'a> {
    documents: &'a [SharedDocument],
    /// The places of the hits that are left.
    places: &'a [Place],
}

impl<'a> Model for Lines<'a> {
    ghost use Rattle.std.specs.Prelude.{List, All};
    ghost use Rattle.views.specs.Found.{Hit as HitValue};

    ghost Value = { List HitValue };

    ghost use Rattle.views.specs.Places.{hits_at, IsPlaced};

    ghost view = { λ h. hits_at h.documents.now h.places.now };

    ghost invariant = { λ h. All (IsPlaced h.documents.now) h.places.now };
}

impl<'a> Lines<'a> {
    /// The same hits once more.
    pub fn again(&self) -> Lines<'a>
        ensures { result ≡ self.now }
    {
        Lines {
            documents: self.documents,
            places: self.places,
        }
    }

    /// How many hits are left.
    pub fn len(&self) -> usize
        ensures { result ≡ length self.now }
    {
        self.places.len()
    }

    /// Whether no hit is left.
    pub fn is_empty(&self) -> bool
        ensures { MatchBool result (self.now ≡ []) (0 < length self.now) }
    {
        self.places.is_empty()
    }

    /// The hit at this index, counted from 0. `None` if there are not so many.
    pub fn get(&self, at: usize) -> Option<Hit<'a>>
        ensures { option_map hit_of result ≡ slice_get self.now at }
    {
        match self.places.get(at) {
            Some(place) => Some(hit_at(self.documents, place)),
            None => None,
        }
    }

    /// The first `at` of these hits, and the others.
    pub fn split_at(&self, at: usize) -> (Lines<'a>, Lines<'a>)
        requires { at ≤ length self.now }
        ensures front { result.0 ≡ take at self.now }
        ensures back { result.1 ≡ drop at self.now }
    {
        let (front, back) = self.places.split_at(at);
        (
            Lines {
                documents: self.documents,
                places: front,
            },
            Lines {
                documents: self.documents,
                places: back,
            },
        )
    }

    /// How many of these hits, from the first on, can be shown in at most `bytes` bytes, where the number of each line
    /// counts as one of ten digits. It is at least one, if a hit is left.
    pub fn count_within(&self, bytes: usize) -> usize
        ensures within { result ≤ length self.now }
        ensures some { 0 < length self.now → 0 < result }
    {
        let mut left = bytes;
        for at in 0..self.len() {
            let size = self.size_at(at);
            if size > left {
                return at.max(1);
            }
            left -= size;
        }
        self.len()
    }

    /// A number of bytes that is enough for the lines of all these hits.
    pub(crate) fn bytes(&self) -> usize {
        let mut bytes = 0usize;
        for at in 0..self.len() {
            bytes = bytes.saturating_add(self.size_at(at));
        }
        bytes
    }

    /// A number of bytes that is enough for the line of the hit at this index.
    fn size_at(&self, at: usize) -> usize {
        let Some(place) = self.places.get(at) else {
            return 0;
        };
        let Some(document) = self.documents.get(place.document as usize) else {
            return 0;
        };
        let text = (place.end as usize).saturating_sub(place.start as usize);
        let name = document.name.as_bytes().len();
        name.saturating_add(text).saturating_add(BESIDE)
    }
}

impl<'a> Iterator for Lines<'a> {
    type Item = Hit<'a>;

    ghost next_gives = { YieldsFirstBy hit_of (λ hits. hits) };

    ghost remaining = { item_count (λ hits. hits) };

    fn next(&mut self) -> Option<Hit<'a>> {
        let (place, others) = self.places.split_first()?;
        self.places = others;
        Some(hit_at(self.documents, place))
    }
}

/// The hit at a place in one of these documents.
fn hit_at<'a>(documents: &'a [SharedDocument], place: &Place) -> Hit<'a>
    requires { IsPlaced documents.now place.now }
    ensures { hit_of result ≡ hit_at documents.now place.now }
{
    let document = &documents[place.document as usize];
    let body = document.held.body().as_bytes();
    Hit {
        name: &document.name,
        line: place.line,
        text: &body[place.start as usize..place.end as usize],
    }
}
