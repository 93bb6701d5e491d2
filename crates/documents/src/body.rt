//! Bodies of documents.

ghost use Rattle.std.specs.Prelude.{◌≡◌, IfOk, IfErr, IfSome, IfNone};
ghost use Rattle.documents.specs.Text.{IsBody, IsBodyOf, IsBodyFault, has_byte_0, has_line_over, usual_lengths};

use crate::error::{BodyError, BodyErrorKind};
use crate::lengths::Lengths;
use memchr::{memchr, memrchr};
use std::alloc::{AllocError, Global};
use std::marker::Model;

/// The greatest length of any body, in bytes (this program's choice).
pub const MAX_BODY: usize = 67_108_864;

/// The text of a document: at most 67,108,864 bytes, none of them 0 (this program's choice). A line ends at a line
/// feed; a last part without one is a line if it is not empty. Lines can have any length.
///
/// Contracts see it as its bytes.
#[derive(Debug, Drop)]
pub struct Body {
    bytes: Vec<u8>,
}

impl Model for Body {
    ghost use Rattle.std.specs.Prelude.{List, ℕ};
    ghost use Rattle.documents.specs.Text.{IsBody};

    ghost Value = { List ℕ };

    ghost view = { λ b. b.bytes.items };

    ghost invariant = { λ b. IsBody b.bytes.items };
}

impl Body {
    /// Makes a body of these bytes, without taking memory, if they are one of the usual lengths (`Lengths::usual`). An
    /// `Err` is as that of `within`.
    pub fn new(bytes: Vec<u8>) -> Result<Body, BodyError>
        ensures body { IfOk result (λ body. (body ≡ bytes.items) × IsBodyOf usual_lengths bytes.items) }
        ensures fault { IfErr result (λ e. IsBodyFault usual_lengths e.kind bytes.items) }
        ensures returned { IfErr result (λ e. e.bytes.items ≡ bytes.items) }
    {
        Body::within(bytes, Lengths::usual())
    }

    /// Makes a body of these bytes, without taking memory, if they are one of these lengths. An `Err` holds the first
    /// cause for which they are not, in the order of `BodyErrorKind`, and hands the bytes back.
    #[tactic(auto, using(crate::proofs::LineLemmas::body_of))]
    pub fn within(bytes: Vec<u8>, lengths: Lengths) -> Result<Body, BodyError>
        ensures body { IfOk result (λ body. (body ≡ bytes.items) × IsBodyOf lengths bytes.items) }
        ensures fault { IfErr result (λ e. IsBodyFault lengths e.kind bytes.items) }
        ensures returned { IfErr result (λ e. e.bytes.items ≡ bytes.items) }
    {
        match fault_of(bytes.as_slice(), lengths) {
            Some(kind) => Err(BodyError { kind, bytes }),
            None => Ok(Body { bytes }),
        }
    }

    /// The bytes of the body.
    pub fn as_bytes(&self) -> &[u8]
        ensures bytes { result.now ≡ self.now }
        ensures body { IsBody self.now }
    {
        self.bytes.as_slice()
    }

    /// A copy. An `Err` means that memory ran out.
    pub fn copy(&self) -> Result<Body, AllocError>
        ensures { IfOk result (λ body. body ≡ self.now) }
    {
        Ok(Body {
            bytes: self.bytes.clone()?,
        })
    }

    /// The allocator of the bytes.
    pub(crate) fn allocator(&self) -> Global {
        *self.bytes.allocator()
    }
}

/// Why the bytes are not a body of these lengths.
#[tactic(auto, unfolding(crate::specs::Text::IsBodyFault))]
fn fault_of(bytes: &[u8], lengths: Lengths) -> Option<BodyErrorKind>
    ensures none { IfNone result (IsBodyOf lengths bytes.now) }
    ensures some { IfSome result (λ kind. IsBodyFault lengths kind bytes.now) }
{
    if bytes.len() > lengths.most_bytes() {
        return Some(BodyErrorKind::TooLong);
    }
    if has_byte_0(bytes) {
        return Some(BodyErrorKind::NotText);
    }
    if has_line_over(lengths.line, bytes) {
        return Some(BodyErrorKind::LineTooLong);
    }
    None
}

fn has_byte_0(bytes: &[u8]) -> bool
    ensures { result ≡ has_byte_0 bytes.now }
{
    memchr(0, bytes).is_some()
}

/// Whether some line has over `most` bytes.
///
/// Of `most + 1` bytes only the last line feed is looked for: the lines that end before it are short enough.
fn has_line_over(most: usize, bytes: &[u8]) -> bool
    ensures { result ≡ has_line_over most bytes.now }
{
    let mut rest = bytes;
    while rest.len() > most {
        let Some(end) = memrchr(b'\n', &rest[..most + 1]) else {
            return true;
        };
        rest = &rest[end + 1..];
    }
    false
}
