//! Keys that two joint maps share.
ghost use Rattle.std.specs.Prelude.{◌≡◌, length};
ghost use Rattle.std.specs.Iterator.{at_most};
ghost use Rattle.prefix_joint_walks.specs.JointIterators.{intersection_left};
ghost use Rattle.prefix_joint_walks.specs.Unions.{GivesShared};

use crate::JointPrefixBits;
use crate::union::{Union, UnionItem};

/// The keys of both of two joint maps with both values, in the order of a union.
#[derive(Drop)]
pub struct Intersection<'a, P: JointPrefixBits, L, R> {
    items: Union<'a, P, L, R>,
}

impl<'a, P: JointPrefixBits, L, R> Intersection<'a, P, L, R> {
    /// What a union gives of these keys.
    pub fn new(items: Union<'a, P, L, R>) -> Self
        ensures { result.items ≡ items.entry }
    {
        Intersection { items }
    }
}

impl<'a, P: JointPrefixBits + Drop, L, R> Iterator for Intersection<'a, P, L, R> {
    type Item = (P, &'a L, &'a R);

    ghost next_gives = { λ s r t. GivesShared P.prefix P.P1.R.WIDTH P.P1.PrefixKey P.P2.R.WIDTH P.P2.PrefixKey
        (intersection_left s) r (intersection_left t) };

    ghost remaining = { λ s. at_most (length (intersection_left s)) };

    fn next(&mut self) -> Option<(P, &'a L, &'a R)> {
        while let Some(item) = self.items.next() {
            if let UnionItem::Both {
                prefix,
                left,
                right,
            } = item
            {
                return Some((prefix, left, right));
            }
        }
        None
    }
}
