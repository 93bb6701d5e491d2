//! Whether the case of letters counts.

/// Whether the case of letters counts.
///
/// Only the 26 ASCII letters have two cases: `A` to `Z` (65 to 90) and `a` to `z` (97 to 122). That is
/// what `REG_ICASE` of POSIX.1-2017 XSH `regcomp` means in the POSIX locale.
#[derive(Clone, Copy, Debug, PartialEq, Eq)]
pub enum Case {
    /// Case counts: each byte stands only for itself.
    Exact,
    /// Case is ignored: a letter also stands for its other case.
    Ignore,
}
