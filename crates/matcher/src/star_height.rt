//! How deep the stars of a tree are nested.

ghost use Rattle.std.specs.Prelude.{◌≡◌, ◌<◌, map, nat_le};
ghost use Rattle.ere.specs.Tree.{form, trees_of};
ghost use Rattle.matcher.specs.StarHeight.{star_height, greatest_height};

use crate::trees::is_set;
use ere::Ere;

/// Whether the tree's star height is at least `least`: whether `least` repeats without a greatest count are
/// nested one inside another. A repeat of a single set does not count.
#[cycle(heights)]
pub fn has_star_height(tree: &Ere, least: u32) -> bool
    ensures { result ≡ nat_le least (star_height (form tree.now)) }
{
    if least == 0 {
        return true;
    }
    match tree {
        Ere::Empty => false,
        Ere::Set(_) => false,
        Ere::Start => false,
        Ere::End => false,
        Ere::Cat(members) => some_has_star_height(members.as_slice(), least),
        Ere::Alt(members) => some_has_star_height(members.as_slice(), least),
        Ere::Repeat(body, _, greatest) => match greatest {
            None => {
                if is_set(body) {
                    return false;
                }
                has_star_height(body, least - 1)
            }
            Some(_) => has_star_height(body, least),
        },
    }
}

/// Whether the star height of some member is at least this.
#[cycle(heights)]
fn some_has_star_height(members: &[Ere], least: u32) -> bool
    requires { 0 < least }
    ensures { result ≡ nat_le least (greatest_height (trees_of (map form members.now))) }
{
    for member in members {
        if has_star_height(member, least) {
            return true;
        }
    }
    false
}
