//! Iterators over archived maps of two address families, one of each. The archived joint maps and sets make these iterators.
#![tactic(auto)]

ghost use Rattle.std.specs.Prelude.{List};
ghost use Rattle.prefix_joint_walks.specs.Joint.{JointKey};

pub mod cover;
pub mod iter;
pub mod prefixes;

/// What contracts see of an iterator over both families. It has no call.
pub trait JointRest {
    // What a contract sees of a value.
    ghost Value: { Type 0 };

    // The entries of the items that are not given yet: those of the first family before those of the second.
    ghost left: { Self → List (JointKey × Value) };
}
