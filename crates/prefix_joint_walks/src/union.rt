//! The union of two joint maps.
ghost use Rattle.std.specs.Prelude.{◌≡◌, length};
ghost use Rattle.std.specs.Iterator.{at_most};
ghost use Rattle.either.specs.declared.Either.TheVariants.{Left, Right};
ghost use Rattle.prefix_joint_walks.specs.JointIterators.{union_left};
ghost use Rattle.prefix_joint_walks.specs.Unions.{item_prefix, item_sides, IsPlain, GivesJointUnion};

use crate::JointPrefixBits;
use crate::merge::{Merge, left_item, right_item};
use prefix_map::PrefixMap;

/// One key of either of two maps, with its values.
#[derive(Clone, Copy, PartialEq, Eq, PartialOrd, Ord, Hash, Drop)]
pub enum UnionItem<'a, P, L, R> {
    /// The left map alone has the key.
    Left {
        prefix: P,
        left: &'a L,
        right: Option<(P, &'a R)>,
    },
    /// The right map alone has the key.
    Right {
        prefix: P,
        left: Option<(P, &'a L)>,
        right: &'a R,
    },
    /// Both maps have the key.
    Both {
        prefix: P,
        left: &'a L,
        right: &'a R,
    },
}

impl<'a, P, L, R> UnionItem<'a, P, L, R> {
    ghost use Rattle.std.specs.Option.{option_map};
    ghost use Rattle.prefix_joint_walks.specs.Unions.{item_both, item_left, item_right};

    /// The prefix.
    pub fn prefix(&self) -> &P
        ensures { result.now ≡ item_prefix self.now }
    {
        match self {
            UnionItem::Left { prefix, .. } => prefix,
            UnionItem::Right { prefix, .. } => prefix,
            UnionItem::Both { prefix, .. } => prefix,
        }
    }

    /// The prefix, by value.
    pub fn into_prefix(self) -> P
    where
        P: Drop,
        ensures { result ≡ item_prefix self.entry }
    {
        match self {
            UnionItem::Left { prefix, .. } => prefix,
            UnionItem::Right { prefix, .. } => prefix,
            UnionItem::Both { prefix, .. } => prefix,
        }
    }

    /// The prefix and both values; `None` where one map alone has the key.
    pub fn both(&self) -> Option<(&P, &'a L, &'a R)>
        ensures { option_map (λ both. (both.0.now, both.1, both.2)) result ≡ item_both self.now }
    {
        match self {
            UnionItem::Both {
                prefix,
                left,
                right,
            } => Some((prefix, *left, *right)),
            _ => None,
        }
    }

    /// The prefix and both values, by value; `None` where one map alone has the key.
    pub fn into_both(self) -> Option<(P, &'a L, &'a R)>
    where
        P: Drop,
        ensures { result ≡ item_both self.entry }
    {
        match self {
            UnionItem::Both {
                prefix,
                left,
                right,
            } => Some((prefix, left, right)),
            _ => None,
        }
    }

    /// The prefix and the left value; where the right map alone has the key, what the field `left` holds.
    pub fn left(&self) -> Option<(&P, &'a L)>
        ensures { option_map (λ item. (item.0.now, item.1)) result ≡ item_left self.now }
    {
        match self {
            UnionItem::Left { prefix, left, .. } => Some((prefix, *left)),
            UnionItem::Both { prefix, left, .. } => Some((prefix, *left)),
            UnionItem::Right {
                left: Some((prefix, left)),
                ..
            } => Some((prefix, *left)),
            UnionItem::Right { left: None, .. } => None,
        }
    }

    /// The same by value.
    pub fn into_left(self) -> Option<(P, &'a L)>
    where
        P: Drop,
        ensures { result ≡ item_left self.entry }
    {
        match self {
            UnionItem::Left { prefix, left, .. } => Some((prefix, left)),
            UnionItem::Both { prefix, left, .. } => Some((prefix, left)),
            UnionItem::Right { left, .. } => left,
        }
    }

    /// The prefix and the right value; where the left map alone has the key, what the field `right` holds.
    pub fn right(&self) -> Option<(&P, &'a R)>
        ensures { option_map (λ item. (item.0.now, item.1)) result ≡ item_right self.now }
    {
        match self {
            UnionItem::Right { prefix, right, .. } => Some((prefix, *right)),
            UnionItem::Both { prefix, right, .. } => Some((prefix, *right)),
            UnionItem::Left {
                right: Some((prefix, right)),
                ..
            } => Some((prefix, *right)),
            UnionItem::Left { right: None, .. } => None,
        }
    }

    /// The same by value.
    pub fn into_right(self) -> Option<(P, &'a R)>
    where
        P: Drop,
        ensures { result ≡ item_right self.entry }
    {
        match self {
            UnionItem::Right { prefix, right, .. } => Some((prefix, right)),
            UnionItem::Both { prefix, right, .. } => Some((prefix, right)),
            UnionItem::Left { right, .. } => right,
        }
    }
}

/// The items of the union of two joint maps: those of the first family, and then those of the second, in key order.
#[derive(Drop)]
pub struct Union<'a, P: JointPrefixBits, L, R> {
    first: Merge<'a, P::P1, L, R>,
    second: Merge<'a, P::P2, L, R>,
}

/// The item of the first family that this one is.
fn of_first<'a, P: JointPrefixBits, L, R>(
    item: UnionItem<'a, P::P1, L, R>,
) -> UnionItem<'a, P, L, R>
    ensures prefix { P.prefix (item_prefix result) ≡ Left (item_prefix item.entry) }
    ensures sides { item_sides result ≡ item_sides item.entry }
    ensures plain { IsPlain result }
{
    match item {
        UnionItem::Left { prefix, left, .. } => left_item(P::from_p1(&prefix), left),
        UnionItem::Right { prefix, right, .. } => right_item(P::from_p1(&prefix), right),
        UnionItem::Both {
            prefix,
            left,
            right,
        } => UnionItem::Both {
            prefix: P::from_p1(&prefix),
            left,
            right,
        },
    }
}

/// The item of the second family that this one is.
fn of_second<'a, P: JointPrefixBits, L, R>(
    item: UnionItem<'a, P::P2, L, R>,
) -> UnionItem<'a, P, L, R>
    ensures prefix { P.prefix (item_prefix result) ≡ Right (item_prefix item.entry) }
    ensures sides { item_sides result ≡ item_sides item.entry }
    ensures plain { IsPlain result }
{
    match item {
        UnionItem::Left { prefix, left, .. } => left_item(P::from_p2(&prefix), left),
        UnionItem::Right { prefix, right, .. } => right_item(P::from_p2(&prefix), right),
        UnionItem::Both {
            prefix,
            left,
            right,
        } => UnionItem::Both {
            prefix: P::from_p2(&prefix),
            left,
            right,
        },
    }
}

impl<'a, P: JointPrefixBits, L, R> Iterator for Union<'a, P, L, R> {
    type Item = UnionItem<'a, P, L, R>;

    ghost next_gives = { λ s r t. GivesJointUnion P.prefix P.P1.R.WIDTH P.P1.PrefixKey P.P2.R.WIDTH P.P2.PrefixKey
        (union_left s) r (union_left t) };

    ghost remaining = { λ s. at_most (length (union_left s)) };

    fn next(&mut self) -> Option<UnionItem<'a, P, L, R>> {
        if let Some(item) = self.first.next() {
            return Some(of_first(item));
        }
        let item = self.second.next()?;
        Some(of_second(item))
    }
}

impl<'a, P: JointPrefixBits, L, R> Union<'a, P, L, R> {
    ghost use Rattle.std.specs.FinMap.{entries};
    ghost use Rattle.prefix_joint_walks.specs.Joint.{both};
    ghost use Rattle.prefix_joint_walks.specs.Unions.{merged};

    /// The union of two pairs of maps.
    pub fn new(
        left: (&'a PrefixMap<P::P1, L>, &'a PrefixMap<P::P2, L>),
        right: (&'a PrefixMap<P::P1, R>, &'a PrefixMap<P::P2, R>),
    ) -> Self
        ensures { union_left result ≡ both (merged (entries left.entry.0.now.entries) (entries right.entry.0.now.entries))
            (merged (entries left.entry.1.now.entries) (entries right.entry.1.now.entries)) }
    {
        Union {
            first: Merge::new(left.0.iter(), right.0.iter()),
            second: Merge::new(left.1.iter(), right.1.iter()),
        }
    }
}
