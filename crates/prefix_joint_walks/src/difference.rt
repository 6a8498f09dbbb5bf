//! Keys of a joint map that another has not.
ghost use Rattle.std.specs.Prelude.{◌≡◌, length};
ghost use Rattle.std.specs.Iterator.{at_most};
ghost use Rattle.prefix_joint_walks.specs.JointIterators.{difference_left};
ghost use Rattle.prefix_joint_walks.specs.Unions.{GivesLeft};

use crate::JointPrefixBits;
use crate::union::{Union, UnionItem};

/// One entry of a map whose key another map has not.
#[derive(Clone, Copy, PartialEq, Eq, PartialOrd, Ord, Hash, Drop)]
pub struct DifferenceItem<'a, P, L, R> {
    /// The prefix, with zero host bits.
    pub prefix: P,
    /// The value.
    pub value: &'a L,
    /// Nothing.
    pub right: Option<(P, &'a R)>,
}

/// The entries of a joint map whose keys another has not, in the order of a union.
#[derive(Drop)]
pub struct Difference<'a, P: JointPrefixBits, L, R> {
    items: Union<'a, P, L, R>,
}

impl<'a, P: JointPrefixBits, L, R> Difference<'a, P, L, R> {
    /// What a union gives of these keys.
    pub fn new(items: Union<'a, P, L, R>) -> Self
        ensures { result.items ≡ items.entry }
    {
        Difference { items }
    }
}

impl<'a, P: JointPrefixBits + Drop, L, R> Iterator for Difference<'a, P, L, R> {
    type Item = DifferenceItem<'a, P, L, R>;

    ghost next_gives = { λ s r t. GivesLeft P.prefix P.P1.R.WIDTH P.P1.PrefixKey P.P2.R.WIDTH P.P2.PrefixKey
        (difference_left s) r (difference_left t) };

    ghost remaining = { λ s. at_most (length (difference_left s)) };

    fn next(&mut self) -> Option<DifferenceItem<'a, P, L, R>> {
        while let Some(item) = self.items.next() {
            if let UnionItem::Left { prefix, left, .. } = item {
                return Some(DifferenceItem {
                    prefix,
                    value: left,
                    right: None,
                });
            }
        }
        None
    }
}
