//! How many steps the matcher can take for a line.

ghost use Rattle.std.specs.Prelude.{◌≡◌, ◌*◌, ◌↔◌, IsTrue, map, min, if◌then◌else◌};
ghost use Rattle.ere.specs.Tree.{form, trees_of};
ghost use Rattle.matcher.specs.StarHeight.{is_set};
ghost use Rattle.matcher.specs.Steps.{goes_far, some_go_far, rounds_of, steps, steps_in, IsQuick};

use crate::star_height::has_star_height;
use crate::trees::is_set;
use ere::Ere;

/// The most steps that a tree may take for a line to be quick. By measurement, `matches` then takes at most a fifth of a
/// second for each MiB of lines of the greatest length.
const MOST_STEPS: u32 = 30_000;

/// How many rounds a star can take whose body has a `$` or a star: one for each byte of the longest line.
const ROUNDS: u32 = 16_384;

/// How many rounds any other star takes. The matcher goes through the line in windows of 64 positions. For each it takes
/// at most 64 rounds within the window, which look at a single word of the set, and then one round over the whole line. By
/// measurement, all of that takes no longer than this many rounds over the line.
const ROUNDS_BY_WINDOWS: u32 = 32;

/// Whether a line costs `matches` few steps: no star (here a repeat without a greatest count) is inside another one, where a
/// star of a single set does not count, and there are at most 30,000 steps. A star around a star of a single set takes so many
/// rounds that it is not quick either, unless it is the star alone. A step moves a set of positions over one set of
/// bytes. The number of steps is a bound for a line of the greatest length; no answer depends on it.
pub fn is_quick(tree: &Ere) -> bool
    ensures { IsTrue result ↔ IsQuick (form tree.now) }
{
    !has_star_height(tree, 2) && capped_steps(tree) <= MOST_STEPS
}

/// The steps of the tree, or 30,001 if there are more.
#[cycle(steps)]
fn capped_steps(tree: &Ere) -> u32
    ensures { result ≡ min (steps (form tree.now)) 30001 }
{
    match tree {
        Ere::Empty => 1,
        Ere::Set(_) => 1,
        Ere::Start => 1,
        Ere::End => 1,
        Ere::Cat(members) => capped_steps_in(members),
        Ere::Alt(members) => capped_steps_in(members),
        Ere::Repeat(body, _, greatest) => match greatest {
            None => {
                if is_set(body) {
                    return 1;
                }
                (rounds_of(body) * capped_steps(body)).min(MOST_STEPS + 1)
            }
            Some(most) => (*most as u32 * capped_steps(body)).min(MOST_STEPS + 1),
        },
    }
}

/// The steps of all members, or 30,001 if there are more.
#[cycle(steps)]
fn capped_steps_in(members: &[Ere]) -> u32
    ensures { result ≡ min (steps_in (trees_of (map form members.now))) 30001 }
{
    let mut sum = 0;
    for i in (0..members.len()).rev() {
        sum = (sum + capped_steps(&members[i])).min(MOST_STEPS + 1);
    }
    sum
}

/// How many rounds a star of this body takes.
fn rounds_of(body: &Ere) -> u32
    ensures { result ≡ rounds_of (form body.now) }
{
    if goes_far(body) {
        ROUNDS
    } else {
        ROUNDS_BY_WINDOWS
    }
}

/// Whether the tree has a `$` or a star, so that one round can lead through the whole line.
#[cycle(reach)]
fn goes_far(tree: &Ere) -> bool
    ensures { result ≡ goes_far (form tree.now) }
{
    match tree {
        Ere::Empty => false,
        Ere::Set(_) => false,
        Ere::Start => false,
        Ere::End => true,
        Ere::Cat(members) => some_go_far(members),
        Ere::Alt(members) => some_go_far(members),
        Ere::Repeat(body, _, greatest) => match greatest {
            None => true,
            Some(_) => goes_far(body),
        },
    }
}

/// Whether some member has a `$` or a star.
#[cycle(reach)]
fn some_go_far(members: &[Ere]) -> bool
    ensures { result ≡ some_go_far (trees_of (map form members.now)) }
{
    let mut found = false;
    for i in (0..members.len()).rev() {
        found = goes_far(&members[i]) || found;
    }
    found
}
