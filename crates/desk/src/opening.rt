//! Openings.

ghost use Rattle.std.specs.Prelude.{◌≡◌, ◌<◌, ◌≤◌, [], Some, All, IfOk, length};
ghost use Rattle.left_right.specs.Sides.{view};
ghost use Rattle.desk.specs.History.{known};
ghost use Rattle.desk.specs.Desk.{desk_state};

use crate::batches::Front;
use crate::desk::Desk;
use crate::error::OpenError;
use crate::exchange::exchange;
use crate::pending::Pending;
use crate::reading::Reading;
use crate::rule::Both;
use crate::shown::Shown;
use std::alloc::{AllocError, Global};
use std::sync::{Arc, Wait};
use versions::Index;

/// The greatest number of commands that a desk can be opened for: the number of the last one fits in 32 bits, and so
/// does the next number.
pub const MAX_COMMANDS: u32 = 4_294_967_294;

/// The greatest number of readings that can be opened (this program's choice).
pub const MAX_READINGS: usize = 17;

/// Opens a desk for at most `max_commands` commands (1 to `MAX_COMMANDS`), and `readers` readings (1 to
/// `MAX_READINGS`). Nothing has been accepted or published, and no reading has seen anything. The desk and the
/// readings belong to one opening. It never waits if it succeeds.
///
/// `OutOfMemory` means that memory ran out, and `NoPlace` that a reading got no place.
pub fn open<R: Wait>(
    rt: &R,
    alloc: Global,
    max_commands: u32,
    readers: usize,
) -> Result<(Desk, Vec<Reading>), OpenError>
    requires commands { (0 < max_commands) × (max_commands ≤ MAX_COMMANDS) }
    requires readers { (0 < readers) × (readers ≤ MAX_READINGS) }
    ensures desk { IfOk result (λ opened. opened.0 ≡ desk_state opened.0.opening max_commands [] []) }
    ensures count { IfOk result (λ opened. length opened.1.items ≡ readers) }
    ensures readings { IfOk result (λ opened. All (λ reading. reading ≡ known opened.0.opening []) opened.1.items) }
{
    open_with_places(rt, alloc, max_commands, readers, readers)
}

/// Opens as `open` does, with `places` places for readings (1 to `MAX_READINGS`). With fewer places than
/// readings, the first reading without a place is refused with `NoPlace`, and nothing is opened. Here
/// `max_commands` and `readers` can be 0.
pub fn open_with_places<R: Wait>(
    rt: &R,
    alloc: Global,
    max_commands: u32,
    places: usize,
    readers: usize,
) -> Result<(Desk, Vec<Reading>), OpenError>
    requires commands { max_commands ≤ MAX_COMMANDS }
    requires places { (0 < places) × (places ≤ MAX_READINGS) }
    ensures desk { IfOk result (λ opened. opened.0 ≡ desk_state opened.0.opening max_commands [] []) }
    ensures count { IfOk result (λ opened. length opened.1.items ≡ readers) }
    ensures readings { IfOk result (λ opened. All (λ reading. reading ≡ known opened.0.opening []) opened.1.items) }
{
    let (head, front) = Front::open();
    let mut both = copies(rt, alloc, &front, places)?;
    match readings(alloc, &mut both, &front, readers) {
        Ok(readings) => {
            let pending = Pending::new(alloc);
            let desk = Desk::over(both, head, front, pending, max_commands, readers);
            Ok((desk, readings))
        }
        Err(error) => {
            both.take(rt);
            Err(error)
        }
    }
}

/// Two copies with an index with no commands, with this number of places for readings. The writer has met this front.
fn copies<R: Wait>(rt: &R, alloc: Global, front: &Front, places: usize) -> Result<Both, AllocError>
    requires front { front.now.commands ≡ [] }
    requires places { (0 < places) × (places ≤ MAX_READINGS) }
    ensures shown { IfOk result (λ both. both.desk.shown.value.front ≡ front.now) }
    ensures spare { IfOk result (λ both. both.desk.spare.value ≡ both.desk.shown.value) }
    ensures met { IfOk result (λ both. view both.desk.place ≡ Some front.now) }
{
    let index = Arc::new(alloc, Index::new(alloc))?;
    let first = Shown::new(Arc::try_clone(&index)?, front);
    let second = Shown::new(Arc::try_clone(&index)?, front);
    let third = Shown::new(Arc::try_clone(&index)?, front);
    let fourth = Shown::new(index, front);
    let mut both = Both::new(alloc, first, second, places)?;
    // The writer meets the front by an exchange.
    exchange(&mut both, rt, third, fourth);
    Ok(both)
}

/// `readers` readings that have seen as much as the writer has met.
fn readings(
    alloc: Global,
    both: &mut Both,
    front: &Front,
    readers: usize,
) -> Result<Vec<Reading>, OpenError>
    requires { view both.old.desk.place ≡ Some front.now }
    ensures count { IfOk result (λ readings. length readings.items ≡ readers) }
    ensures readings { IfOk result (λ readings. All (λ reading. reading ≡ front.now) readings.items) }
    ensures shown { both.new.desk.shown ≡ both.old.desk.shown }
    ensures spare { both.new.desk.spare ≡ both.old.desk.spare }
{
    let mut readings = Vec::new(alloc);
    for _ in 0..readers {
        readings.push(Reading::of(both, front)?)?;
    }
    Ok(readings)
}
