//! Tests of lines and names.

ghost use Rattle.ere.specs.Tree.{form};
ghost use Rattle.ere.specs.Limits.{IsWithinLimits};
ghost use Rattle.ere.proofs.OneWay.{IsWithinLimits-prop};

use ere::Ere;

/// A test of a line or a name: whether it contains a match of the tree or, if the test is inverted, whether it contains none.
#[derive(Debug, Drop)]
pub struct Test {
    /// The tree, which is within the limits.
    pub tree: Ere,
    /// Whether the test is inverted.
    pub inverted: bool,
    pub ghost limits: { IsWithinLimits (form tree) } by { IsWithinLimits-prop (form tree) },
}
