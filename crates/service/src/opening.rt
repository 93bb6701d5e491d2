//! Services and their readers, opened together.

ghost use Rattle.std.specs.Prelude.{◌≡◌, ℕ, ◌+◌, ◌<◌, ◌≤◌, [], ◌∷◌, All, IfOk, is_some, length, replicate};
ghost use Rattle.published.specs.declared.opening.TheConstants.{MAX_COMMANDS};
ghost use Rattle.published.specs.Desk.{desk_state};
ghost use Rattle.published.specs.History.{known};
ghost use Rattle.service.specs.Turns.{last};
ghost use Rattle.service.specs.Service.{first_service};
ghost use Rattle.service.specs.Opening.{limits_of, opened_state};

use crate::naming::Naming;
use crate::reader::Reader;
use crate::service::Service;
use crate::turns::{Last, Turns};
use documents::Lengths;
use published::{Desk, OpenError, Reading, Told};
use std::alloc::{AllocError, Global};
use std::collections::VecDeque;
use std::marker::{Model, PhantomData};
use std::sync::Wait;
use std::thread::Threads;

/// A desk and its readings, before the first item. They have no name in types yet. Contracts see them as their opening, its
/// limits, and the number of readers. End it with `named`.
pub struct Opened {
    desk: Desk,
    told: Told,
    /// The reading of reader 0.
    reading: Reading,
    readings: Vec<Reading>,
    /// How long names, bodies and lines may be.
    lengths: Lengths,
    /// How many milliseconds a search has at most, if there is such a limit.
    search_ms: Option<u32>,
    /// Whether each answer shows its times.
    times: bool,
}

impl Model for Opened {
    ghost use Rattle.std.specs.Prelude.{◌≡◌, ◌≤◌, [], All, is_some, length};
    ghost use Rattle.published.specs.History.{known};
    ghost use Rattle.service.specs.Opening.{OpenedState, limits_of, opened_state};

    ghost Value = { OpenedState };

    ghost view = { λ o. opened_state o.desk.opening (limits_of o.desk.limit o.lengths (is_some o.search_ms)) (length o.readings.items) };

    ghost invariant = { λ o. (o.desk.accepted ≡ []) × (o.desk.published ≡ []) × (o.told ≡ known o.desk.opening []) × (o.reading ≡ known o.desk.opening [])
        × All (λ reading. reading ≡ known o.desk.opening []) o.readings.items × (length o.readings.items ≤ 16) };
}

/// Opens a service for at most `max_commands` commands (1 to 4,294,967,294), for names, bodies and lines of these
/// lengths, with `readers` readers in addition to reader 0 (0 to 16), in which a search has at most `search_ms`
/// milliseconds, if there is such a limit, and each answer shows how long it waited and worked, and how, if `times`.
///
/// `NoPlace` means that a reader got no place, and `OutOfMemory` that memory ran out.
pub fn open<R: Threads + Wait + Sync>(
    rt: &R,
    alloc: Global,
    max_commands: u32,
    lengths: Lengths,
    search_ms: Option<u32>,
    times: bool,
    readers: u32,
) -> Result<Opened, OpenError>
    requires commands { (0 < max_commands) × (max_commands ≤ MAX_COMMANDS) }
    requires readers { readers ≤ 16 }
    ensures { IfOk result (λ opened. opened ≡ opened_state opened.opening (limits_of max_commands lengths (is_some search_ms)) readers) }
{
    let (mut desk, mut readings) = published::open(rt, alloc, max_commands, readers as usize + 1)?;
    match (readings.pop(), desk.publish(rt)) {
        (Some(reading), Ok(told)) => Ok(Opened {
            desk,
            told,
            reading,
            readings,
            lengths,
            search_ms,
            times,
        }),
        _ => {
            desk.close(rt);
            Err(OpenError::OutOfMemory)
        }
    }
}

impl Opened {
    /// The service, and its readers, numbered from 1.
    ///
    /// An `Err` means that memory ran out for their lists. What was opened is then closed.
    pub fn named<J: Naming, R: Wait>(
        self,
        rt: &R,
        alloc: Global,
    ) -> Result<(Service<J>, Vec<Reader<J>>), AllocError>
        requires { self.opening ≡ J.book }
        ensures service { IfOk result (λ named. named.0 ≡ first_service self.limits self.readers) }
        ensures count { IfOk result (λ named. length named.1.items ≡ self.readers) }
    {
        let Opened {
            desk,
            told,
            reading,
            readings,
            lengths,
            search_ms,
            times,
        } = self;
        match parts(alloc, readings) {
            Ok((readers, kept, lasts)) => {
                let service = Service::new(
                    alloc,
                    desk,
                    told,
                    reading,
                    kept,
                    Turns::new(alloc, lasts),
                    lengths,
                    search_ms,
                    times,
                );
                Ok((service, readers))
            }
            Err(error) => {
                desk.close(rt);
                Err(error)
            }
        }
    }
}

/// Readers with these readings, numbered from 1, and the lists of a service with so many readers before its first item.
fn parts<J: Naming>(
    alloc: Global,
    readings: Vec<Reading>,
) -> Result<(Vec<Reader<J>>, VecDeque<u32>, Vec<Last>), AllocError>
    requires opening { All (λ reading. reading.opening ≡ J.book) readings.items }
    requires few { length readings.items ≤ 16 }
    ensures readers { IfOk result (λ parts. length parts.0.items ≡ length readings.items) }
    ensures kept { IfOk result (λ parts. parts.1.items ≡ 0 ∷ []) }
    ensures lasts { IfOk result (λ parts. parts.2.items ≡ replicate (length readings.items + 1) (last 0 0)) }
{
    let first = Last {
        turn: 0,
        version: 0,
    };
    let lasts = vec![in alloc; first; readings.len() + 1]?;
    let mut kept = VecDeque::new(alloc);
    kept.push_back(0)?;
    let readers = readers_of(alloc, readings)?;
    Ok((readers, kept, lasts))
}

/// Readers with these readings, numbered from 1.
fn readers_of<J: Naming>(
    alloc: Global,
    readings: Vec<Reading>,
) -> Result<Vec<Reader<J>>, AllocError>
    requires opening { All (λ reading. reading.opening ≡ J.book) readings.items }
    requires few { length readings.items ≤ 16 }
    ensures count { IfOk result (λ readers. length readers.items ≡ length readings.items) }
{
    let mut readers = Vec::with_capacity(alloc, readings.len())?;
    for reading in readings {
        let number = readers.len() as u32 + 1;
        readers.push(Reader {
            reading,
            number,
            of: PhantomData,
        })?;
    }
    Ok(readers)
}
