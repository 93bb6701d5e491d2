//! The reading of an input.

ghost use Rattle.std.specs.Prelude.{◌≡◌, true, false, [], None};
ghost use Rattle.input.specs.Stream.{stream_at};
ghost use Rattle.input.specs.Read.{feed_state, end_state};
ghost use Rattle.input.specs.Next.{Comes, HasEnded};

use crate::fronts::{Book, Front, Naming};
use crate::message::{Ended, Next, Sent};
use crate::{ItemStream, StreamError};
use std::alloc::Global;
use std::io::BufRead;
use std::marker::Model;

/// An input that is read item by item, with the history of what was read. Contracts see it as its state (`FeedState`), and
/// what it has read is known to be of the input that the history is of.
#[derive(Drop)]
pub struct Feed<K: Naming, I: BufRead + Drop> {
    book: Book<K>,
    read: Front<K>,
    stream: ItemStream,
    /// The error that ended the reading.
    failed: Option<StreamError>,
    input: I,
}

impl<K: Naming, I: BufRead + Drop> Model for Feed<K, I> {
    ghost use Rattle.input.specs.Read.{FeedState, feed_state, IsFed};

    ghost Value = { FeedState };

    ghost view = { λ f. feed_state f.read f.stream f.failed (I.remaining f.input) };

    ghost invariant = { λ f. IsFed K.input (feed_state f.read f.stream f.failed (I.remaining f.input)) };
}

impl<K: Naming, I: BufRead + Drop> Feed<K, I> {
    /// A feed at the first byte of an input, and with an empty history. The bytes of a put are kept if they are no more
    /// than `most_kept`.
    pub fn new(
        alloc: Global,
        book: Book<K>,
        read: Front<K>,
        input: I,
        most_kept: usize,
    ) -> Feed<K, I>
        requires read { read ≡ [] }
        requires input { I.remaining input ≡ K.input }
        ensures { result ≡ feed_state [] (stream_at 1 false) None (I.remaining input) }
    {
        Feed {
            book,
            read,
            stream: ItemStream::new(alloc, most_kept),
            failed: None,
            input,
        }
    }

    /// Reads the next item, as `crate::ItemStream::next_item` does, and returns its message, or how the reading ended:
    /// at the end of the input, after a fault that ends it, or with an error. Nothing is read after the end, and each
    /// later call returns the same end.
    ///
    /// The error is that of `crate::ItemStream::next_item`.
    pub fn next(&mut self) -> Next<K>
        ensures comes { Comes self.old result self.new }
        ensures over { HasEnded self.old → (result ≡ Next.End (end_state self.old.read self.old.failed)) × (self.new.left ≡ self.old.left) }
    {
        if self.failed.is_some() {
            return self.end();
        }
        match self.stream.next_item(&mut self.input) {
            Ok(Some(item)) => match Sent::after(&self.read, &self.book, item) {
                Some(sent) => {
                    self.read = sent.read.again();
                    Next::Item(sent)
                }
                None => {
                    self.failed = Some(StreamError::OutOfMemory);
                    self.end()
                }
            },
            Ok(None) => self.end(),
            Err(error) => {
                self.failed = Some(error);
                self.end()
            }
        }
    }

    /// How the reading ended.
    fn end(&self) -> Next<K>
        requires { self.now.failed ≡ None → self.now.stream.ended ≡ true }
        ensures { result ≡ Next.End (end_state self.now.read self.now.failed) }
    {
        Next::End(Ended {
            read: self.read.again(),
            failed: self.failed,
        })
    }
}
