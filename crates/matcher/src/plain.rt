//! Which bodies of stars the walk goes through window by window.

ghost use Rattle.std.specs.Prelude.{IsTrue, All};
ghost use Rattle.ere.specs.Tree.{form};
ghost use Rattle.matcher.specs.Private.Longer.{HoldsInLonger};

use crate::trees::is_set;
use ere::Ere;

/// Whether a tree has no `$`, and no star (a repeat without a greatest count) except of a single set. Without a `$`,
/// wherever a word leads in a prefix of a line, it leads in the whole line too.
#[cycle(plain)]
pub fn is_plain(tree: &Ere) -> bool
    ensures { IsTrue result → HoldsInLonger (form tree.now) }
{
    match tree {
        Ere::Empty => true,
        Ere::Set(_members) => true,
        Ere::Start => true,
        Ere::End => false,
        Ere::Cat(members) => are_plain(members),
        Ere::Alt(members) => are_plain(members),
        Ere::Repeat(body, _least, greatest) => (greatest.is_some() || is_set(body))
            && is_plain(body),
    }
}

/// Whether all members are plain.
#[cycle(plain)]
fn are_plain(members: &[Ere]) -> bool
    ensures { IsTrue result → All (λ member. HoldsInLonger (form member)) members.now }
{
    for member in members {
        if !is_plain(member) {
            return false;
        }
    }
    true
}
