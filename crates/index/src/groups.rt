//! The names of contents that several documents have, or had.

ghost use Rattle.std.specs.Prelude.{◌≡◌, ℕ, OnOk, OnErr, IsSome, IsTrue, IsFalse};
ghost use Rattle.std.specs.Ordering.{nat_cmp};
ghost use Rattle.std.specs.BTreeMap.{get};
ghost use Rattle.index.specs.Private.Contents.{Joins, LeavesEntry, LeavesLast};

use documents::Name;
use std::alloc::{AllocError, Global};
use std::collections::{BTreeMap, BTreeSet};

/// The name joins those of the content that has this number and is kept with the name `first`. An `Err` means that memory ran out,
/// or that a name has too many handles; all entries are as they were then.
pub(crate) fn join(
    groups: &mut BTreeMap<u32, BTreeSet<Name>>,
    alloc: Global,
    number: u32,
    first: &Name,
    name: &Name,
) -> Result<(), AllocError>
    ensures ok { OnOk result (Joins number first.now name.now groups.old groups.new) }
    ensures err { OnErr result ((m : ℕ) → get nat_cmp groups.new m ≡ get nat_cmp groups.old m) }
{
    let own = name.share()?;
    if let Some(names) = groups.get_mut(&number) {
        names.insert(own)?;
        return Ok(());
    }
    let mut names = BTreeSet::new(alloc);
    names.insert(first.share()?)?;
    names.insert(own)?;
    groups.insert(number, names)?;
    Ok(())
}

/// The name leaves the content with this number. Returns whether the content has other names; if not, it has no entry any more.
pub(crate) fn part(groups: &mut BTreeMap<u32, BTreeSet<Name>>, number: u32, name: &Name) -> bool
    ensures stays { IsTrue result → LeavesEntry number name.now groups.old groups.new }
    ensures goes { IsFalse result → LeavesLast number name.now groups.old groups.new }
{
    let Some(names) = groups.get_mut(&number) else {
        return false;
    };
    names.remove(name);
    if !names.is_empty() {
        return true;
    }
    groups.remove(&number);
    false
}

/// Takes the name out of the entry of this number, which joined last.
pub(crate) fn take_back(groups: &mut BTreeMap<u32, BTreeSet<Name>>, number: u32, name: &Name)
    requires { IsSome (get nat_cmp groups.old number) }
    ensures { LeavesEntry number name.now groups.old groups.new }
{
    if let Some(names) = groups.get_mut(&number) {
        names.remove(name);
    }
}
