//! Iterators over the entries of an archived joint map: those of the first family, and then those of the second, each in
//! key order.
ghost use Rattle.std.specs.Prelude.{◌≡◌, [], IfSome, map};
ghost use Rattle.std.specs.Iterator.{YieldsFirstBy, item_count};
ghost use Rattle.either.specs.Either.{map_either};
ghost use Rattle.prefix_joint_walks.specs.Joint.{HasZeroHostBits, both};

use crate::JointRest;
use crate::prefixes::{of_first, of_second};
use prefix_archive::ArchivedValue;
use prefix_archive::map::Iter as FamilyIter;
use prefix_joint_walks::JointPrefixBits;
use prefix_layout::ValueCodec;
use prefix_view::iter::Rest;

/// The entries: prefixes with host bits zero, and values.
#[derive(Drop)]
pub struct Iter<'a, P: JointPrefixBits, T: ValueCodec> {
    first: FamilyIter<'a, P::P1, T>,
    second: FamilyIter<'a, P::P2, T>,
}

impl<'a, P: JointPrefixBits, T: ValueCodec> JointRest for Iter<'a, P, T> {
    ghost Value = { T };

    ghost left = { λ it. both (⟦<FamilyIter<'a, P::P1, T> as Rest>⟧.left it.first) (⟦<FamilyIter<'a, P::P2, T> as Rest>⟧.left it.second) };
}

impl<'a, P: JointPrefixBits, T: ValueCodec> Iter<'a, P, T> {
    /// The entries of two iterators.
    pub fn new(first: FamilyIter<'a, P::P1, T>, second: FamilyIter<'a, P::P2, T>) -> Self
        ensures first { result.first ≡ first.entry }
        ensures second { result.second ≡ second.entry }
    {
        Iter { first, second }
    }
}

impl<'a, P: JointPrefixBits, T: ValueCodec> Default for Iter<'a, P, T> {
    ghost is_default = { λ it. ⟦<Iter<'a, P, T> as JointRest>⟧.left it ≡ [] };

    fn default() -> Self {
        Iter {
            first: FamilyIter::default(),
            second: FamilyIter::default(),
        }
    }
}

impl<'a, P: JointPrefixBits, T: ValueCodec> Iterator for Iter<'a, P, T> {
    type Item = (P, ArchivedValue<'a, T>);

    ghost next_gives = { λ s r t.
        YieldsFirstBy (λ x. (map_either P.P1.key P.P2.key (P.prefix x.0), x.1.spelling.value)) ⟦<Iter<'a, P, T> as JointRest>⟧.left s r t
        × IfSome r (λ x. HasZeroHostBits P.P1.R.WIDTH P.P1.PrefixKey P.P2.R.WIDTH P.P2.PrefixKey (P.prefix x.0)) };

    ghost remaining = { item_count ⟦<Iter<'a, P, T> as JointRest>⟧.left };

    fn next(&mut self) -> Option<(P, ArchivedValue<'a, T>)> {
        if let Some((prefix, value)) = self.first.next() {
            return Some((of_first(&prefix), value));
        }
        let (prefix, value) = self.second.next()?;
        Some((of_second(&prefix), value))
    }
}

/// The prefixes of the entries, with host bits zero.
#[derive(Drop)]
pub struct Keys<'a, P: JointPrefixBits, T: ValueCodec> {
    entries: Iter<'a, P, T>,
}

impl<'a, P: JointPrefixBits, T: ValueCodec> JointRest for Keys<'a, P, T> {
    ghost Value = { T };

    ghost left = { λ it. ⟦<Iter<'a, P, T> as JointRest>⟧.left it.entries };
}

impl<'a, P: JointPrefixBits, T: ValueCodec> Keys<'a, P, T> {
    /// The prefixes of entries.
    pub fn new(entries: Iter<'a, P, T>) -> Self
        ensures { result.entries ≡ entries.entry }
    {
        Keys { entries }
    }
}

impl<'a, P: JointPrefixBits, T: ValueCodec> Default for Keys<'a, P, T> {
    ghost is_default = { λ it. ⟦<Keys<'a, P, T> as JointRest>⟧.left it ≡ [] };

    fn default() -> Self {
        Keys {
            entries: Iter::default(),
        }
    }
}

impl<'a, P: JointPrefixBits + Drop, T: ValueCodec> Iterator for Keys<'a, P, T> {
    type Item = P;

    ghost next_gives = { λ s r t.
        YieldsFirstBy (λ x. map_either P.P1.key P.P2.key (P.prefix x)) (λ it. map (λ e. e.0) (⟦<Keys<'a, P, T> as JointRest>⟧.left it)) s r t
        × IfSome r (λ x. HasZeroHostBits P.P1.R.WIDTH P.P1.PrefixKey P.P2.R.WIDTH P.P2.PrefixKey (P.prefix x)) };

    ghost remaining = { item_count ⟦<Keys<'a, P, T> as JointRest>⟧.left };

    fn next(&mut self) -> Option<P> {
        let (prefix, _) = self.entries.next()?;
        Some(prefix)
    }
}

/// The values of the entries.
#[derive(Drop)]
pub struct Values<'a, P: JointPrefixBits, T: ValueCodec> {
    entries: Iter<'a, P, T>,
}

impl<'a, P: JointPrefixBits, T: ValueCodec> JointRest for Values<'a, P, T> {
    ghost Value = { T };

    ghost left = { λ it. ⟦<Iter<'a, P, T> as JointRest>⟧.left it.entries };
}

impl<'a, P: JointPrefixBits, T: ValueCodec> Values<'a, P, T> {
    /// The values of entries.
    pub fn new(entries: Iter<'a, P, T>) -> Self
        ensures { result.entries ≡ entries.entry }
    {
        Values { entries }
    }
}

impl<'a, P: JointPrefixBits, T: ValueCodec> Default for Values<'a, P, T> {
    ghost is_default = { λ it. ⟦<Values<'a, P, T> as JointRest>⟧.left it ≡ [] };

    fn default() -> Self {
        Values {
            entries: Iter::default(),
        }
    }
}

impl<'a, P: JointPrefixBits + Drop, T: ValueCodec> Iterator for Values<'a, P, T> {
    type Item = ArchivedValue<'a, T>;

    ghost next_gives = { YieldsFirstBy (λ x. x.spelling.value) (λ it. map (λ e. e.1) (⟦<Values<'a, P, T> as JointRest>⟧.left it)) };

    ghost remaining = { item_count ⟦<Values<'a, P, T> as JointRest>⟧.left };

    fn next(&mut self) -> Option<ArchivedValue<'a, T>> {
        let (_, value) = self.entries.next()?;
        Some(value)
    }
}
