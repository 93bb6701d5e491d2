//! The tree whose matches are shown.

ghost use Rattle.std.specs.Prelude.{◌≡◌, map};
ghost use Rattle.ere.specs.Tree.{form, trees_of};
ghost use Rattle.prepare.specs.Prepared.{inside, second};

use crate::pattern::Prepared;
use ere::Ere;

impl Prepared {
    ghost use Rattle.std.specs.Prelude.{◌≡◌, unwrap_or};
    ghost use Rattle.ere.specs.Limits.{IsWithinLimits};
    ghost use Rattle.ere.specs.Tree.{form};
    ghost use Rattle.prepare.specs.Prepared.{request_of};

    /// The tree whose matches are shown: that of the test of lines or, if only whole words count, the tree within it that
    /// stands between the edges of words.
    pub fn shown_tree(&self) -> &Ere
        ensures tree { form result.now ≡ unwrap_or (request_of self.now).word (form self.now.line.tree) }
        ensures limits { IsWithinLimits (form result.now) }
    {
        if self.words {
            return inside(&self.line.tree);
        }
        &self.line.tree
    }
}

/// The second member of a tree that has members one after another, or else the tree itself.
fn inside(tree: &Ere) -> &Ere
    ensures { form result.now ≡ inside (form tree.now) }
{
    match tree {
        Ere::Empty => tree,
        Ere::Set(_) => tree,
        Ere::Start => tree,
        Ere::End => tree,
        Ere::Cat(members) => second(members, tree),
        Ere::Alt(_) => tree,
        Ere::Repeat(_, _, _) => tree,
    }
}

/// The second of the trees, or `otherwise` if there are not so many.
fn second<'a>(trees: &'a [Ere], otherwise: &'a Ere) -> &'a Ere
    ensures { form result.now ≡ second (trees_of (map form trees.now)) (form otherwise.now) }
{
    match trees {
        [_, tree, ..] => tree,
        _ => otherwise,
    }
}
