//! An index is shown in both copies.

ghost use Rattle.std.specs.Prelude.{◌≡◌, Some};
ghost use Rattle.left_right.specs.Sides.{view};
ghost use Rattle.desk.specs.Private.Rule.{IsExact};

use crate::rule::{Both, Meet};
use crate::shown::Shown;
use core::mem::{replace, replace_with};
use std::sync::Wait;

/// Shows the first one, and then writes the second one, which is the same, over the other copy: when it returns, no copy has what was
/// shown before, which comes back. It takes no memory. It waits at most for readings that are in a copy.
pub(crate) fn exchange<R: Wait>(both: &mut Both, rt: &R, first: Shown, second: Shown) -> Shown
    requires same { second ≡ first }
    requires exact { IsExact first }
    requires one { first.front.opening ≡ both.old.desk.shown.value.front.opening }
    ensures shown { both.new.desk.shown.value ≡ first }
    ensures spare { both.new.desk.spare.value ≡ first }
    ensures met { view both.new.desk.place ≡ Some first.front }
    ensures before { result ≡ both.old.desk.shown.value }
{
    replace_with(
        both,
        (rt, first, second),
        |both: Both, x: (&R, Shown, Shown)| -> (Both, Shown)
            requires { (x.2 ≡ x.1) × IsExact x.1 × (x.1.front.opening ≡ both.desk.shown.value.front.opening) }
            ensures { (result.0.desk.shown.value ≡ x.entry.1) × (result.0.desk.spare.value ≡ x.entry.1) × (view result.0.desk.place ≡ Some x.entry.1.front) × (result.1 ≡ both.desk.shown.value) }
        { exchanged(both, x.0, x.1, x.2) },
    )
}

fn exchanged<R: Wait>(both: Both, rt: &R, first: Shown, second: Shown) -> (Both, Shown)
    requires same { second ≡ first }
    requires exact { IsExact first }
    requires one { first.front.opening ≡ both.desk.shown.value.front.opening }
    ensures shown { result.0.desk.shown.value ≡ first }
    ensures spare { result.0.desk.spare.value ≡ first }
    ensures met { view result.0.desk.place ≡ Some first.front }
    ensures before { result.1 ≡ both.desk.shown.value }
{
    let mut both = both;
    let (open, mut spare) = both.desk.open(rt);
    *spare = first;
    let (open, mut other) = open.show_as::<Meet>(spare).open(rt);
    let before = replace(&mut *other, second);
    both.desk = open.shelve(other);
    (both, before)
}
