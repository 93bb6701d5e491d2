//! Why a pattern is refused.

ghost use Rattle.std.specs.Prelude.{◌≡◌, ◌<◌, ◌^◌};

use std::alloc::AllocFailed;

/// Why a pattern is refused, and where.
#[derive(Clone, Copy, Debug, PartialEq, Eq)]
pub struct EreError {
    /// The kind of fault.
    pub kind: EreErrorKind,
    /// The offset in the pattern, in bytes from 0, at which the fault is reported; 0 for `OutOfMemory`.
    pub at: u32,
}

/// The kinds of faults of a pattern. `reason` gives the words of each.
#[derive(Clone, Copy, Debug, PartialEq, Eq)]
pub enum EreErrorKind {
    /// The pattern has over 1,024 bytes. Reported at 1024.
    TooLong,
    /// A byte 0 or 10 (line feed). Reported at the first such byte.
    BadByte,
    /// A backslash before a byte that cannot be escaped, or at the pattern's end. Reported at the backslash. ASCII
    /// punctuation can be escaped, except `<`, `>`, the grave accent and the apostrophe.
    BadEscape,
    /// A bracket expression, or a `[.`, `[=` or `[:` in it, has no end. Reported at the expression's `[`.
    BadBracket,
    /// A range that is backwards, that shares an end with another, or that has a character class or an equivalence
    /// class as an end. Reported at the `-`.
    BadRange,
    /// An unknown character class, or a collating symbol or an equivalence class that is not of one byte. Reported at
    /// the `[` of the class or symbol.
    BadClass,
    /// A `{` before a digit does not begin a valid interval: `{m}`, `{m,}` or `{m,n}`, with counts of at most 255 and
    /// m at most n. Reported at the `{`.
    BadInterval,
    /// A duplication with nothing before it to repeat: at the start of a branch, or after an anchor. Reported at its
    /// first byte.
    NothingToRepeat,
    /// A group has no end. Reported at the innermost open `(`.
    Unclosed,
    /// Over 64 groups are open at once, reported at the `(` of the 65th. Or the tree's height is over 64, reported
    /// at 0.
    TooDeep,
    /// The tree has over 4,096 leaves (counted as in `Ere::within_limits`). Reported at 0.
    TooLarge,
    /// Memory ran out. Reported at 0.
    OutOfMemory,
}

impl EreError {
    /// A fault at an offset, in bytes. An offset above `u32::MAX`, which no pattern within the limits has, becomes
    /// `u32::MAX`.
    pub fn new(kind: EreErrorKind, at: usize) -> EreError
        ensures kind { result.kind ≡ kind }
        ensures at { at < 2 ^ 32 → result.at ≡ at }
    {
        EreError {
            kind,
            at: u32::try_from(at).unwrap_or(u32::MAX),
        }
    }
}

impl<T: Drop> From<AllocFailed<T>> for EreError {
    ghost use Rattle.ere.specs.declared.error.EreErrorKind.TheVariants.{OutOfMemory};

    ghost from_gives = { λ _ e. (e.kind ≡ OutOfMemory) × (e.at ≡ 0) };

    fn from(_: AllocFailed<T>) -> EreError {
        EreError::new(EreErrorKind::OutOfMemory, 0)
    }
}

impl EreErrorKind {
    ghost use Rattle.ere.specs.Faults.{reason_of};

    /// The text of the refusal, such as `bad escape`.
    pub fn reason(self) -> &'static str
        ensures { result.now ≡ reason_of self }
    {
        match self {
            EreErrorKind::TooLong => "pattern too long",
            EreErrorKind::BadByte => "bad byte",
            EreErrorKind::BadEscape => "bad escape",
            EreErrorKind::BadBracket => "bracket not closed",
            EreErrorKind::BadRange => "bad range",
            EreErrorKind::BadClass => "unknown class",
            EreErrorKind::BadInterval => "bad interval",
            EreErrorKind::NothingToRepeat => "nothing to repeat",
            EreErrorKind::Unclosed => "group not closed",
            EreErrorKind::TooDeep => "too deep (over 64 levels)",
            EreErrorKind::TooLarge => "too large (over 4096 leaves)",
            EreErrorKind::OutOfMemory => "out of memory",
        }
    }
}
