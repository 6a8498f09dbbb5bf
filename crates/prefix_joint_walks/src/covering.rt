//! Keys of a joint map that no key of another is a front of.
ghost use Rattle.std.specs.Prelude.{◌≡◌, length};
ghost use Rattle.std.specs.Iterator.{at_most};
ghost use Rattle.prefix_map.specs.Items.{GivesFirst};
ghost use Rattle.prefix_joint_walks.specs.JointItems.{GivesJoint};
ghost use Rattle.prefix_joint_walks.specs.Coverings.{uncovered_left, covering_left};

use crate::JointPrefixBits;
use prefix_map::PrefixMap;
use prefix_map::map::iter::Iter as FamilyIter;
use prefix_table::{PrefixBits, PrefixKey};

/// The entries of one family whose keys begin with no key of another map.
#[derive(Drop)]
pub(crate) struct Uncovered<'a, P: PrefixKey, L, R> {
    entries: FamilyIter<'a, P, L>,
    other: &'a PrefixMap<P, R>,
}

impl<'a, P: PrefixBits + Copy, L, R> Iterator for Uncovered<'a, P, L, R> {
    type Item = (P, &'a L);

    ghost next_gives = { λ s r t. GivesFirst P.R.WIDTH P.PrefixKey (uncovered_left s) r (uncovered_left t) };

    ghost remaining = { λ s. at_most (length (uncovered_left s)) };

    fn next(&mut self) -> Option<(P, &'a L)> {
        while let Some((prefix, value)) = self.entries.next() {
            if !self.other.is_covered(&prefix) {
                return Some((prefix, value));
            }
        }
        None
    }
}

/// The entries of a joint map whose keys begin with no key of another: those of the first family, and then those of the
/// second, each in key order.
#[derive(Drop)]
pub struct CoveringDifference<'a, P: JointPrefixBits, L, R> {
    first: Uncovered<'a, P::P1, L, R>,
    second: Uncovered<'a, P::P2, L, R>,
}

impl<'a, P: JointPrefixBits, L, R> Iterator for CoveringDifference<'a, P, L, R> {
    type Item = (P, &'a L);

    ghost next_gives = { λ s r t. GivesJoint P.prefix P.P1.R.WIDTH P.P1.PrefixKey P.P2.R.WIDTH P.P2.PrefixKey
        (covering_left s) r (covering_left t) };

    ghost remaining = { λ s. at_most (length (covering_left s)) };

    fn next(&mut self) -> Option<(P, &'a L)> {
        if let Some((prefix, value)) = self.first.next() {
            return Some((P::from_p1(&prefix), value));
        }
        let (prefix, value) = self.second.next()?;
        Some((P::from_p2(&prefix), value))
    }
}

impl<'a, P: JointPrefixBits, L, R> CoveringDifference<'a, P, L, R> {
    ghost use Rattle.std.specs.FinMap.{entries};
    ghost use Rattle.prefix_joint_walks.specs.Joint.{both};
    ghost use Rattle.prefix_joint_walks.specs.Unions.{not_covered};

    /// The entries of two maps that two others do not cover.
    pub fn new(
        left: (&'a PrefixMap<P::P1, L>, &'a PrefixMap<P::P2, L>),
        right: (&'a PrefixMap<P::P1, R>, &'a PrefixMap<P::P2, R>),
    ) -> Self
        ensures { covering_left result ≡ both (not_covered right.entry.0.now.entries (entries left.entry.0.now.entries))
            (not_covered right.entry.1.now.entries (entries left.entry.1.now.entries)) }
    {
        CoveringDifference {
            first: Uncovered {
                entries: left.0.iter(),
                other: right.0,
            },
            second: Uncovered {
                entries: left.1.iter(),
                other: right.1,
            },
        }
    }
}
