//! The bodies under names.

ghost use Rattle.std.specs.Prelude.{◌≡◌, option_map};
ghost use Rattle.std.specs.FinMap.{get};
ghost use Rattle.versions.specs.Private.Version.{bodies_of};

use documents::{Body, Name};
use names::Names;

/// The body under a name, if it has one.
pub(crate) fn body_under<'a>(names: &'a Names, name: &Name) -> Option<&'a Body>
    ensures { option_map (λ body. body.now) result ≡ get (bodies_of names.now) name.now }
{
    match names.get(name.as_bytes()) {
        Some(content) => Some(content.held.body()),
        None => None,
    }
}
