//! The entries of an archived joint map whose keys a prefix's key begins with, the shortest first.
ghost use Rattle.std.specs.Prelude.{◌≡◌, IfSome, cond, map};
ghost use Rattle.std.specs.Iterator.{YieldsFirstBy, item_count};
ghost use Rattle.either.specs.Either.{map_either};
ghost use Rattle.prefix_joint_walks.specs.Joint.{HasZeroHostBits, first_entries, second_entries};

use crate::JointRest;
use crate::prefixes::{of_first, of_second};
use prefix_archive::ArchivedValue;
use prefix_archive::map::Cover as FamilyCover;
use prefix_joint_walks::JointPrefixBits;
use prefix_layout::ValueCodec;
use prefix_view::iter::Rest;

/// The entries of a family whose keys a prefix's key begins with, the shortest first: prefixes with host bits zero, and
/// values.
#[derive(Drop)]
pub struct Cover<'a, P: JointPrefixBits, T: ValueCodec> {
    first: FamilyCover<'a, P::P1, T>,
    second: FamilyCover<'a, P::P2, T>,
    in_first: bool,
}

impl<'a, P: JointPrefixBits, T: ValueCodec> JointRest for Cover<'a, P, T> {
    ghost Value = { T };

    ghost left = { λ it. cond it.in_first (first_entries (⟦<FamilyCover<'a, P::P1, T> as Rest>⟧.left it.first))
        (second_entries (⟦<FamilyCover<'a, P::P2, T> as Rest>⟧.left it.second)) };
}

impl<'a, P: JointPrefixBits, T: ValueCodec> Cover<'a, P, T> {
    /// The entries of one of two families: of the first where `in_first`, and else of the second.
    pub fn new(
        first: FamilyCover<'a, P::P1, T>,
        second: FamilyCover<'a, P::P2, T>,
        in_first: bool,
    ) -> Self
        ensures first { result.first ≡ first.entry }
        ensures second { result.second ≡ second.entry }
        ensures in_first { result.in_first ≡ in_first }
    {
        Cover {
            first,
            second,
            in_first,
        }
    }
}

impl<'a, P: JointPrefixBits, T: ValueCodec> Iterator for Cover<'a, P, T> {
    type Item = (P, ArchivedValue<'a, T>);

    ghost next_gives = { λ s r t.
        YieldsFirstBy (λ x. (map_either P.P1.key P.P2.key (P.prefix x.0), x.1.spelling.value)) ⟦<Cover<'a, P, T> as JointRest>⟧.left s r t
        × IfSome r (λ x. HasZeroHostBits P.P1.R.WIDTH P.P1.PrefixKey P.P2.R.WIDTH P.P2.PrefixKey (P.prefix x.0)) };

    ghost remaining = { item_count ⟦<Cover<'a, P, T> as JointRest>⟧.left };

    fn next(&mut self) -> Option<(P, ArchivedValue<'a, T>)> {
        if self.in_first {
            let (prefix, value) = self.first.next()?;
            return Some((of_first(&prefix), value));
        }
        let (prefix, value) = self.second.next()?;
        Some((of_second(&prefix), value))
    }
}

/// The prefixes of the entries of a family whose keys a prefix's key begins with, the shortest first.
#[derive(Drop)]
pub struct CoverKeys<'a, P: JointPrefixBits, T: ValueCodec> {
    entries: Cover<'a, P, T>,
}

impl<'a, P: JointPrefixBits, T: ValueCodec> JointRest for CoverKeys<'a, P, T> {
    ghost Value = { T };

    ghost left = { λ it. ⟦<Cover<'a, P, T> as JointRest>⟧.left it.entries };
}

impl<'a, P: JointPrefixBits, T: ValueCodec> CoverKeys<'a, P, T> {
    /// The prefixes of entries.
    pub fn new(entries: Cover<'a, P, T>) -> Self
        ensures { result.entries ≡ entries.entry }
    {
        CoverKeys { entries }
    }
}

impl<'a, P: JointPrefixBits + Drop, T: ValueCodec> Iterator for CoverKeys<'a, P, T> {
    type Item = P;

    ghost next_gives = { λ s r t.
        YieldsFirstBy (λ x. map_either P.P1.key P.P2.key (P.prefix x)) (λ it. map (λ e. e.0) (⟦<CoverKeys<'a, P, T> as JointRest>⟧.left it)) s r t
        × IfSome r (λ x. HasZeroHostBits P.P1.R.WIDTH P.P1.PrefixKey P.P2.R.WIDTH P.P2.PrefixKey (P.prefix x)) };

    ghost remaining = { item_count ⟦<CoverKeys<'a, P, T> as JointRest>⟧.left };

    fn next(&mut self) -> Option<P> {
        let (prefix, _) = self.entries.next()?;
        Some(prefix)
    }
}

/// The values of the entries of a family whose keys a prefix's key begins with, that of the shortest first.
#[derive(Drop)]
pub struct CoverValues<'a, P: JointPrefixBits, T: ValueCodec> {
    entries: Cover<'a, P, T>,
}

impl<'a, P: JointPrefixBits, T: ValueCodec> JointRest for CoverValues<'a, P, T> {
    ghost Value = { T };

    ghost left = { λ it. ⟦<Cover<'a, P, T> as JointRest>⟧.left it.entries };
}

impl<'a, P: JointPrefixBits, T: ValueCodec> CoverValues<'a, P, T> {
    /// The values of entries.
    pub fn new(entries: Cover<'a, P, T>) -> Self
        ensures { result.entries ≡ entries.entry }
    {
        CoverValues { entries }
    }
}

impl<'a, P: JointPrefixBits + Drop, T: ValueCodec> Iterator for CoverValues<'a, P, T> {
    type Item = ArchivedValue<'a, T>;

    ghost next_gives = { YieldsFirstBy (λ x. x.spelling.value) (λ it. map (λ e. e.1) (⟦<CoverValues<'a, P, T> as JointRest>⟧.left it)) };

    ghost remaining = { item_count ⟦<CoverValues<'a, P, T> as JointRest>⟧.left };

    fn next(&mut self) -> Option<ArchivedValue<'a, T>> {
        let (_, value) = self.entries.next()?;
        Some(value)
    }
}
