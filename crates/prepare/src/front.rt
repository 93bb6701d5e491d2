//! The text with which the names begin that a search asks for.

ghost use Rattle.std.specs.Prelude.{◌≡◌, ◌≤◌, ℕ, IfOk, List, All, length, map, take};
ghost use Rattle.prepare.specs.Front.{IsFrontOf, front_by};
ghost use Rattle.prepare.specs.Pattern.{Passes};
ghost use Rattle.prepare.specs.Tests.{test_of};

use crate::anchored::anchored_text;
use crate::asked::Test;
use std::alloc::{AllocError, Global};

/// A text with which every name begins that passes all of these tests: the longest that one of them shows by itself. It is
/// empty if none shows any. An `Err` means that memory ran out.
pub fn front_of(alloc: Global, tests: &[Test]) -> Result<Vec<u8>, AllocError>
    ensures begins { IfOk result (λ front. IsFrontOf (map test_of tests.now) front.items) }
    ensures longest { IfOk result (λ front. All (λ test. length (front_by test) ≤ length front.items) (map test_of tests.now)) }
{
    let mut longest = Vec::new(alloc);
    for test in tests {
        let front = front_by(alloc, test)?;
        if front.len() > longest.len() {
            longest = front;
        }
    }
    Ok(longest)
}

/// The text with which every name begins that passes the test, as far as its tree shows it at a glance. A test of names that
/// have no match shows none.
fn front_by(alloc: Global, test: &Test) -> Result<Vec<u8>, AllocError>
    ensures text { IfOk result (λ front. front.items ≡ front_by (test_of test.now)) }
    ensures begins { IfOk result (λ front. (name : List ℕ) → Passes (test_of test.now) name → take (length front.items) name ≡ front.items) }
{
    if test.inverted {
        return Ok(Vec::new(alloc));
    }
    anchored_text(alloc, &test.tree)
}
