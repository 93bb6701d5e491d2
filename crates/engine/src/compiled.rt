//! Compiled patterns.

ghost use Rattle.std.specs.Prelude.{◌≡◌, IfOk, IfSome};
ghost use Rattle.ere.specs.Tree.{form};
ghost use Rattle.matcher.specs.Steps.{IsQuick};
ghost use Rattle.regex_hir.specs.Meaning.{meaning};
ghost use Rattle.regex_meta.specs.Programs.{pattern_of};

use crate::translate::{line_pattern_for, pattern_for};
use crate::work::{longest_for, takes_long};
use ere::Ere;
use matcher::is_quick;
use regex_compile::Error;
use regex_hir::Hir;
use regex_meta::Program;
use std::alloc::{AllocError, Global};

/// The greatest size of the tables of a compiled pattern, in bytes, if the matcher is quick for its tree.
///
/// The engine's time for a text is bounded by the text's length times this size, and comes close to that if
/// the engine's own tables of states give up.
const MOST_TABLES: usize = 8192;

/// The greatest size of the tables for any other tree. With stars inside stars the engine comes closer to its bound, up to
/// 5 ns for each byte of the tables and of the text, and takes longer than the simulation if the tables are larger than this.
const MOST_TABLES_IF_NOT_QUICK: usize = 1024;

/// A pattern compiled for the engine.
pub struct Compiled {
    /// The engine's program.
    pub(crate) program: Program,
    /// The longest text that it should search at one go, in bytes.
    pub(crate) longest: usize,
}

// Written out, so a caller's proof sees one call.
impl Drop for Compiled {
    fn drop(self) {
        let Compiled {
            program: _program,
            longest: _longest,
        } = self;
    }
}

impl Compiled {
    ghost use Rattle.std.specs.Prelude.{IfOk, IfSome};
    ghost use Rattle.ere.specs.Tree.{form};
    ghost use Rattle.engine.specs.Patterns.{IsCompiledFrom, IsCompiledForLines};

    /// Compiles the pattern of a tree. Returns `None` if its tables are so large that they would make a search slow:
    /// over 8,192 bytes, or over 1,024 if the matcher is not quick for the tree; or if it would take many milliseconds to compile it.
    ///
    /// An `Err` means that memory ran out.
    pub fn new(alloc: Global, tree: &Ere) -> Result<Option<Compiled>, AllocError>
        ensures { IfOk result (λ o. IfSome o (IsCompiledFrom (form tree.now))) }
    {
        compiled_from(alloc, tree, pattern_for(alloc, tree)?)
    }

    /// Compiles a pattern that finds the lines with a match of the tree, but not where their matches begin: what the tree begins
    /// with, and can be empty, is left out. Returns `None` as `new` does.
    ///
    /// An `Err` means that memory ran out.
    pub fn for_lines(alloc: Global, tree: &Ere) -> Result<Option<Compiled>, AllocError>
        ensures { IfOk result (λ o. IfSome o (IsCompiledForLines (form tree.now))) }
    {
        compiled_from(alloc, tree, line_pattern_for(alloc, tree)?)
    }
}

/// The pattern of the tree, compiled, unless its tables would be too large, or that would take long.
fn compiled_from(alloc: Global, tree: &Ere, pattern: Hir) -> Result<Option<Compiled>, AllocError>
    ensures { IfOk result (λ o. IfSome o (λ compiled. pattern_of compiled.program ≡ meaning pattern)) }
{
    if takes_long(alloc, tree)? {
        return Ok(None);
    }
    match Program::new(alloc, pattern, 1, most_tables(tree)) {
        Ok(program) => Ok(Some(Compiled {
            program,
            longest: longest_for(tree),
        })),
        Err(Error::OutOfMemory) => Err(AllocError),
        Err(_) => Ok(None),
    }
}

/// How large the tables of the tree's pattern may be. No answer depends on it.
fn most_tables(tree: &Ere) -> usize
    ensures quick { IsQuick (form tree.now) → result ≡ MOST_TABLES }
    ensures others { (IsQuick (form tree.now) → ⊥) → result ≡ MOST_TABLES_IF_NOT_QUICK }
{
    if is_quick(tree) {
        MOST_TABLES
    } else {
        MOST_TABLES_IF_NOT_QUICK
    }
}
