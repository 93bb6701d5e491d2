//! The reader of patterns.

ghost use Rattle.std.specs.Prelude.{◌≡◌, ◌≢◌, ◌<◌, ◌≤◌, IfErr, IfOk, IsFalse, List, OnOk, OnErr, drop, length};
ghost use Rattle.std.specs.List.{AllByRecursion};
ghost use Rattle.ere.specs.Limits.{greatest_open, greatest_pattern, height, HasNoTree, IsTreeOf, IsWithinLimits};
ghost use Rattle.ere.specs.Literal.{IsPatternText, IsTextFault, NamesTextFault};
ghost use Rattle.ere.specs.Private.Reading.{ends_branch, HasNoTokens, IsBuilt, NoAlternatives, NoAtom, NoBranch, NoDuplication};
ghost use Rattle.ere.specs.Private.Reading.{NoPiece, NoTimes, ReadsAlternatives, ReadsAtom, ReadsBranch, ReadsDuplications, ReadsPiece};
ghost use Rattle.ere.specs.Tokens.{opens, SpellsToken, Token as AnyToken, Tokens};
ghost use Rattle.ere.specs.Tree.{form, Tree};

use crate::brackets::stands_at;
use crate::byte_set::{ByteSet, is_line_byte};
use crate::case::Case;
use crate::error::{EreError, EreErrorKind};
use crate::limits::{MAX_LEAVES, capped_leaves};
use crate::parts::{Part, alternatives_of, branch_of, leaf, no_members, repeat_of, with_member};
use crate::token::{Token, duplication_at, token_at};
use crate::tree::Ere;
use std::alloc::Global;

/// The greatest length of a pattern, in bytes (this program's choice).
pub const MAX_PATTERN: usize = 1024;

/// The greatest number of groups that can be open at once (this program's choice).
pub const MAX_OPEN: u8 = 64;

/// Reads a pattern in which case counts, as `parse_with` does with `Case::Exact`. The tree takes its memory from
/// `alloc`.
///
/// An `Ok` holds the pattern's only tree, which is within the limits. An `Err` names the fault that a reading from left
/// to right meets first, and its offset (`EreErrorKind`): the pattern has no tree then. Or it is `OutOfMemory`, which
/// says nothing about the pattern. (POSIX.1-2017 XBD 9.4 and 9.3.5; the limits are this program's choice.)
pub fn parse(alloc: Global, pattern: &[u8]) -> Result<Ere, EreError>
    ensures tree { IfOk result (λ e. IsTreeOf Case.Exact pattern.now (form e)) }
    ensures limits { IfOk result (λ e. IsWithinLimits (form e)) }
    ensures allowed { OnOk result (IsPatternText pattern.now) }
    ensures refused { IfErr result (λ e. e.kind ≢ EreErrorKind.OutOfMemory → HasNoTree Case.Exact pattern.now) }
    ensures text { IfErr result (NamesTextFault pattern.now) }
{
    parse_with(alloc, pattern, Case::Exact)
}

/// Reads a pattern in which case counts or is ignored. The tree takes its memory from `alloc`.
///
/// An `Ok` holds the pattern's only tree for this `case`, which is within the limits. An `Err` names the fault that
/// a reading from left to right meets first, and its offset (`EreErrorKind`). The length and the bytes are checked
/// first, the height and the leaves last. `OutOfMemory` says nothing about the pattern; any other fault means that it
/// has no tree. (POSIX.1-2017 XBD 9.4 and 9.3.5; the limits are this program's choice.)
pub fn parse_with(alloc: Global, pattern: &[u8], case: Case) -> Result<Ere, EreError>
    ensures tree { IfOk result (λ e. IsTreeOf case pattern.now (form e)) }
    ensures limits { IfOk result (λ e. IsWithinLimits (form e)) }
    ensures allowed { OnOk result (IsPatternText pattern.now) }
    ensures refused { IfErr result (λ e. e.kind ≢ EreErrorKind.OutOfMemory → HasNoTree case pattern.now) }
    ensures text { IfErr result (NamesTextFault pattern.now) }
{
    check_bytes(pattern)?;
    let (part, _end) = alternatives(alloc, case, pattern, 0, 0)?;
    let Some(part) = part else {
        return Err(EreError::new(EreErrorKind::TooDeep, 0));
    };
    if capped_leaves(&part.tree) > MAX_LEAVES {
        return Err(EreError::new(EreErrorKind::TooLarge, 0));
    }
    Ok(part.tree)
}

/// Checks that the pattern is short enough and made of line bytes.
///
/// An `Err` is `TooLong`, at 1024, if it has over 1,024 bytes, and otherwise `BadByte`, at the first byte 0 or line
/// feed.
pub fn check_bytes(pattern: &[u8]) -> Result<(), EreError>
    ensures short { OnOk result (length pattern.now ≤ greatest_pattern) }
    ensures allowed { OnOk result (AllByRecursion (λ b. (b ≢ 0) × (b ≢ 10)) pattern.now) }
    ensures text { OnOk result (IsPatternText pattern.now) }
    ensures err { OnErr result ((case : Case) → HasNoTree case pattern.now) }
    ensures fault { IfErr result (IsTextFault pattern.now) }
{
    if pattern.len() > MAX_PATTERN {
        return Err(EreError::new(EreErrorKind::TooLong, MAX_PATTERN));
    }
    for (i, byte) in pattern.iter().enumerate() {
        if !is_line_byte(*byte) {
            return Err(EreError::new(EreErrorKind::BadByte, i));
        }
    }
    Ok(())
}

/// The alternatives from `start` on, inside `depth` groups, and the offset where they end.
#[cycle(reader)]
fn alternatives(
    alloc: Global,
    case: Case,
    text: &[u8],
    start: usize,
    depth: u8,
) -> Result<(Option<Part>, usize), EreError>
    requires within { start ≤ length text.now }
    requires open_groups { depth ≤ greatest_open }
    ensures ok { IfOk result (λ r. ReadsAlternatives case depth (drop start text.now) (drop r.1 text.now) r.0) }
    ensures after { IfOk result (λ r. (start ≤ r.1) × (r.1 ≤ length text.now)) }
    ensures err { IfErr result (λ e. e.kind ≢ EreErrorKind.OutOfMemory → NoAlternatives case depth (drop start text.now)) }
{
    let (first, mut at) = branch(alloc, case, text, start, depth)?;
    let mut branches = with_member(no_members(alloc), first)?;
    while stands_at(text, at, b'|') {
        let (next, after) = branch(alloc, case, text, at + 1, depth)?;
        branches = with_member(branches, next)?;
        at = after;
    }
    Ok((alternatives_of(branches), at))
}

/// The branch from `start` on, and the offset where it ends.
#[cycle(reader)]
fn branch(
    alloc: Global,
    case: Case,
    text: &[u8],
    start: usize,
    depth: u8,
) -> Result<(Option<Part>, usize), EreError>
    requires within { start ≤ length text.now }
    requires open_groups { depth ≤ greatest_open }
    ensures ok { IfOk result (λ r. ReadsBranch case depth (drop start text.now) (drop r.1 text.now) r.0) }
    ensures after { IfOk result (λ r. (start ≤ r.1) × (r.1 ≤ length text.now)) }
    ensures err { IfErr result (λ e. e.kind ≢ EreErrorKind.OutOfMemory → NoBranch case depth (drop start text.now)) }
{
    let mut pieces = no_members(alloc);
    let mut at = start;
    while !is_branch_end(text, at, depth) {
        let (next, after) = piece(alloc, case, text, at, depth)?;
        pieces = with_member(pieces, next)?;
        at = after;
    }
    Ok((branch_of(pieces), at))
}

/// Whether a branch ends at `at`, inside `depth` groups.
fn is_branch_end(text: &[u8], at: usize, depth: u8) -> bool
    requires { at ≤ length text.now }
    ensures { result ≡ ends_branch depth (drop at text.now) }
{
    at == text.len() || text[at] == b'|' || (depth > 0 && text[at] == b')')
}

/// The piece at `at`, which is an anchor or an atom with its duplications, and the offset after it.
#[cycle(reader)]
fn piece(
    alloc: Global,
    case: Case,
    text: &[u8],
    at: usize,
    depth: u8,
) -> Result<(Option<Part>, usize), EreError>
    requires begins { IsFalse (ends_branch depth (drop at text.now)) }
    requires within { at < length text.now }
    requires open_groups { depth ≤ greatest_open }
    ensures ok { IfOk result (λ r. ReadsPiece case depth (drop at text.now) (drop r.1 text.now) r.0) }
    ensures after { IfOk result (λ r. (at < r.1) × (r.1 ≤ length text.now)) }
    ensures err { IfErr result (λ e. e.kind ≢ EreErrorKind.OutOfMemory → NoPiece case depth (drop at text.now)) }
{
    let (token, after) = token_at(case, text, at)?;
    match token {
        Token::Times(_, _) => Err(EreError::new(EreErrorKind::NothingToRepeat, at)),
        Token::AtStart => anchor(case, text, after, Ere::Start),
        Token::AtEnd => anchor(case, text, after, Ere::End),
        Token::Set(members) => repeated(alloc, case, text, after, Some(leaf(Ere::Set(members)))),
        Token::Opens => {
            let (part, end) = group(alloc, case, text, at, after, depth)?;
            repeated(alloc, case, text, end, part)
        }
        Token::Closes => {
            let members = ByteSet::single(b')');
            repeated(alloc, case, text, after, Some(leaf(Ere::Set(members))))
        }
        Token::Bar => unreachable!(),
    }
}

/// The group whose `(` is at `opening` and whose alternatives begin at `start`, and the offset after its `)`.
#[cycle(reader)]
fn group(
    alloc: Global,
    case: Case,
    text: &[u8],
    opening: usize,
    start: usize,
    depth: u8,
) -> Result<(Option<Part>, usize), EreError>
    requires opens { SpellsToken case (drop opening text.now) (drop start text.now) opens }
    requires after_it { opening < start }
    requires within { start ≤ length text.now }
    requires open_groups { depth ≤ greatest_open }
    ensures ok { IfOk result (λ r. ReadsAtom case depth (drop opening text.now) (drop r.1 text.now) r.0) }
    ensures after { IfOk result (λ r. (opening < r.1) × (r.1 ≤ length text.now)) }
    ensures err { IfErr result (λ e. e.kind ≢ EreErrorKind.OutOfMemory → NoAtom case depth (drop opening text.now)) }
{
    if depth == MAX_OPEN {
        return Err(EreError::new(EreErrorKind::TooDeep, opening));
    }
    let (part, end) = alternatives(alloc, case, text, start, depth + 1)?;
    if end == text.len() {
        return Err(EreError::new(EreErrorKind::Unclosed, opening));
    }
    Ok((part, end + 1))
}

/// The anchor that ends at `after`, which no duplication may follow.
fn anchor(
    case: Case,
    text: &[u8],
    after: usize,
    tree: Ere,
) -> Result<(Option<Part>, usize), EreError>
    requires { after ≤ length text.now }
    ensures ok { IfOk result (λ r. (r.1 ≡ after) × NoDuplication case (drop after text.now)) }
    ensures built { IfOk result (λ r. (plain : Tree) → form tree ≡ plain → height plain ≡ 1 → IsBuilt r.0 plain) }
    ensures err { OnErr result ((all : List AnyToken) → Tokens case (drop after text.now) all → NoTimes all → ⊥) }
{
    match duplication_at(case, text, after)? {
        Some(_) => Err(EreError::new(EreErrorKind::NothingToRepeat, after)),
        None => Ok((Some(leaf(tree)), after)),
    }
}

/// The atom with the duplications from `start` on, and the offset after them.
fn repeated(
    alloc: Global,
    case: Case,
    text: &[u8],
    start: usize,
    atom: Option<Part>,
) -> Result<(Option<Part>, usize), EreError>
    requires { start ≤ length text.now }
    ensures ok { IfOk result (λ r. (tree : Tree) → IsBuilt atom tree → ReadsDuplications case (drop start text.now) (drop r.1 text.now) tree r.0) }
    ensures after { IfOk result (λ r. (start ≤ r.1) × (r.1 ≤ length text.now)) }
    ensures err { IfErr result (λ e. e.kind ≢ EreErrorKind.OutOfMemory → HasNoTokens case (drop start text.now)) }
{
    let mut part = atom;
    let mut at = start;
    loop {
        let Some((least, greatest, after)) = duplication_at(case, text, at)? else {
            return Ok((part, at));
        };
        part = repeat_of(alloc, part, least, greatest)?;
        at = after;
    }
}
