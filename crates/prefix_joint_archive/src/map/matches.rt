//! Questions about what covers a prefix, and about coverage.
ghost use Rattle.std.specs.Prelude.{◌≡◌, ◌↔◌, ◌+◌, ◌/◌, ◌<◌, ◌≤◌, Some, IsSome, IsTrue, IfSome, slice_get};
ghost use Rattle.std.specs.Option.{option_map};
ghost use Rattle.either.specs.Either.{MatchEither, either, map_either};
ghost use Rattle.prefix_model.specs.Counts.{Counts};
ghost use Rattle.prefix_model.specs.Coverage.{IsCovered};
ghost use Rattle.prefix_model.specs.Tables.{answer};
ghost use Rattle.prefix_joint_walks.specs.Joint.{Fits, HasZeroHostBits, IsLongestAt, joint_fronts, shortest_at, value_at};
ghost use Rattle.prefix_joint_archive.specs.Families.{pair_of};

use crate::map::ArchivedJointPrefixMap;
use either::{Left, Right};
use prefix_archive::ArchivedValue;
use prefix_joint::{JointPrefix, JointPrefixBits};
use prefix_joint_archive_walks::prefixes::{of_first, of_second};
use prefix_layout::ValueCodec;
use prefix_table::{Prefix, Steps};
use std::marker::Brand;
use std::sync::ledger::{Blank, Ledger};

impl<'a, P: JointPrefixBits, T: ValueCodec> ArchivedJointPrefixMap<'a, P, T> {
    /// The longest stored prefix that contains a prefix or is it, with host bits zero, and its value; `None` where
    /// there is none.
    pub fn get_lpm(&self, prefix: &P) -> Option<(P, ArchivedValue<'a, T>)>
        requires { Fits P.P1.R.WIDTH P.P1.PrefixKey P.P2.R.WIDTH P.P2.PrefixKey (P.prefix prefix.now) }
        ensures longest { IsLongestAt (pair_of self.now.t1.table.entries self.now.t2.table.entries)
            (map_either P.P1.key P.P2.key (P.prefix prefix.now)) (option_map (λ e. map_either P.P1.key P.P2.key (P.prefix e.0)) result) }
        ensures value { IfSome result (λ e. value_at (pair_of self.now.t1.table.entries self.now.t2.table.entries)
            (map_either P.P1.key P.P2.key (P.prefix e.0)) ≡ Some e.1.spelling.value) }
        ensures host_bits { IfSome result (λ e. HasZeroHostBits P.P1.R.WIDTH P.P1.PrefixKey P.P2.R.WIDTH P.P2.PrefixKey (P.prefix e.0)) }
    {
        lpm_in::<P, T, Brand>(self, prefix, Blank::new(1))
    }

    /// As [`get_lpm`](ArchivedJointPrefixMap::get_lpm), with at most one record read for each five bits of the prefix,
    /// and one more.
    #[inline]
    pub fn get_lpm_counted<L: Ledger>(
        &self,
        prefix: &P,
        steps: &mut Steps<L>,
    ) -> Option<(P, ArchivedValue<'a, T>)>
        requires { Fits P.P1.R.WIDTH P.P1.PrefixKey P.P2.R.WIDTH P.P2.PrefixKey (P.prefix prefix.now) }
        ensures longest { IsLongestAt (pair_of self.now.t1.table.entries self.now.t2.table.entries)
            (map_either P.P1.key P.P2.key (P.prefix prefix.now)) (option_map (λ e. map_either P.P1.key P.P2.key (P.prefix e.0)) result) }
        ensures value { IfSome result (λ e. value_at (pair_of self.now.t1.table.entries self.now.t2.table.entries)
            (map_either P.P1.key P.P2.key (P.prefix e.0)) ≡ Some e.1.spelling.value) }
        ensures host_bits { IfSome result (λ e. HasZeroHostBits P.P1.R.WIDTH P.P1.PrefixKey P.P2.R.WIDTH P.P2.PrefixKey (P.prefix e.0)) }
        ensures steps { steps.new ≤ steps.old + (either P.P1.prefix_len P.P2.prefix_len (P.prefix prefix.now) / 5 + 1) }
    {
        match prefix.p1_or_p2_ref() {
            Left(p) => {
                let (found, value) = self.t1.get_lpm_counted(p, steps)?;
                Some((of_first(&found), value))
            }
            Right(p) => {
                let (found, value) = self.t2.get_lpm_counted(p, steps)?;
                Some((of_second(&found), value))
            }
        }
    }

    /// The longest stored prefix that contains a prefix or is it, with host bits zero; `None` where there is none.
    pub fn get_lpm_prefix(&self, prefix: &P) -> Option<P>
        requires { Fits P.P1.R.WIDTH P.P1.PrefixKey P.P2.R.WIDTH P.P2.PrefixKey (P.prefix prefix.now) }
        ensures longest { IsLongestAt (pair_of self.now.t1.table.entries self.now.t2.table.entries)
            (map_either P.P1.key P.P2.key (P.prefix prefix.now)) (option_map (λ p. map_either P.P1.key P.P2.key (P.prefix p)) result) }
        ensures host_bits { IfSome result (λ p. HasZeroHostBits P.P1.R.WIDTH P.P1.PrefixKey P.P2.R.WIDTH P.P2.PrefixKey (P.prefix p)) }
    {
        match self.get_lpm(prefix) {
            Some((found, _)) => Some(found),
            None => None,
        }
    }

    /// The shortest stored prefix that contains a prefix or is it, with host bits zero, and its value; `None` where
    /// there is none.
    pub fn get_spm(&self, prefix: &P) -> Option<(P, ArchivedValue<'a, T>)>
        requires { Fits P.P1.R.WIDTH P.P1.PrefixKey P.P2.R.WIDTH P.P2.PrefixKey (P.prefix prefix.now) }
        ensures first { option_map (λ e. (map_either P.P1.key P.P2.key (P.prefix e.0), e.1.spelling.value)) result
            ≡ shortest_at (pair_of self.now.t1.table.entries self.now.t2.table.entries) (map_either P.P1.key P.P2.key (P.prefix prefix.now)) }
        ensures host_bits { IfSome result (λ e. HasZeroHostBits P.P1.R.WIDTH P.P1.PrefixKey P.P2.R.WIDTH P.P2.PrefixKey (P.prefix e.0)) }
    {
        let mut entries = self.cover(prefix);
        entries.next()
    }

    /// The shortest stored prefix that contains a prefix or is it, with host bits zero; `None` where there is none.
    pub fn get_spm_prefix(&self, prefix: &P) -> Option<P>
        requires { Fits P.P1.R.WIDTH P.P1.PrefixKey P.P2.R.WIDTH P.P2.PrefixKey (P.prefix prefix.now) }
        ensures first { option_map (λ p. map_either P.P1.key P.P2.key (P.prefix p)) result
            ≡ option_map (λ e. e.0) (shortest_at (pair_of self.now.t1.table.entries self.now.t2.table.entries)
            (map_either P.P1.key P.P2.key (P.prefix prefix.now))) }
        ensures host_bits { IfSome result (λ p. HasZeroHostBits P.P1.R.WIDTH P.P1.PrefixKey P.P2.R.WIDTH P.P2.PrefixKey (P.prefix p)) }
    {
        match self.get_spm(prefix) {
            Some((found, _)) => Some(found),
            None => None,
        }
    }

    /// Whether some stored prefix contains a prefix or is it.
    pub fn is_covered(&self, prefix: &P) -> bool
        requires { Fits P.P1.R.WIDTH P.P1.PrefixKey P.P2.R.WIDTH P.P2.PrefixKey (P.prefix prefix.now) }
        ensures { IsTrue result ↔ IsSome (slice_get (joint_fronts (pair_of self.now.t1.table.entries self.now.t2.table.entries)
            (map_either P.P1.key P.P2.key (P.prefix prefix.now))) 0) }
    {
        match prefix.p1_or_p2_ref() {
            Left(p) => self.t1.cover_values(p).next().is_some(),
            Right(p) => self.t2.cover_values(p).next().is_some(),
        }
    }

    /// Whether every address that begins with the prefix's key has an answer.
    pub fn is_covered_in_aggregate(&self, prefix: &P) -> bool
        requires { Fits P.P1.R.WIDTH P.P1.PrefixKey P.P2.R.WIDTH P.P2.PrefixKey (P.prefix prefix.now) }
        ensures { IsTrue result ↔ MatchEither (P.prefix prefix.now) (λ p. IsCovered P.P1.R.WIDTH self.now.t1.table.entries (P.P1.key p))
            (λ p. IsCovered P.P2.R.WIDTH self.now.t2.table.entries (P.P2.key p)) }
    {
        match prefix.p1_or_p2_ref() {
            Left(p) => self.t1.is_covered_in_aggregate(p),
            Right(p) => self.t2.is_covered_in_aggregate(p),
        }
    }
}

/// What [`get_lpm`](ArchivedJointPrefixMap::get_lpm) answers. Its record reads are counted in the ledger of the blank.
#[inline]
fn lpm_in<'a, P: JointPrefixBits, T: ValueCodec, L: Ledger>(
    archive: &ArchivedJointPrefixMap<'a, P, T>,
    prefix: &P,
    blank: Blank,
) -> Option<(P, ArchivedValue<'a, T>)>
    requires fits { Fits P.P1.R.WIDTH P.P1.PrefixKey P.P2.R.WIDTH P.P2.PrefixKey (P.prefix prefix.now) }
    requires name { blank.name ≡ L.name }
    requires parts { blank.parts ≡ L.parts }
    requires some { 0 < blank.parts }
    ensures longest { IsLongestAt (pair_of archive.now.t1.table.entries archive.now.t2.table.entries)
        (map_either P.P1.key P.P2.key (P.prefix prefix.now)) (option_map (λ e. map_either P.P1.key P.P2.key (P.prefix e.0)) result) }
    ensures value { IfSome result (λ e. value_at (pair_of archive.now.t1.table.entries archive.now.t2.table.entries)
        (map_either P.P1.key P.P2.key (P.prefix e.0)) ≡ Some e.1.spelling.value) }
    ensures host_bits { IfSome result (λ e. HasZeroHostBits P.P1.R.WIDTH P.P1.PrefixKey P.P2.R.WIDTH P.P2.PrefixKey (P.prefix e.0)) }
{
    let mut steps: Steps<L> = Steps::new(blank);
    archive.get_lpm_counted(prefix, &mut steps)
}

impl<'a, P: JointPrefix, T: ValueCodec> ArchivedJointPrefixMap<'a, P, T> {
    /// How many addresses of each family have an answer; `None` where all have one.
    pub fn address_count(&self) -> (Option<<P::P1 as Prefix>::R>, Option<<P::P2 as Prefix>::R>)
        ensures first { Counts P.P1.R.value P.P1.R.WIDTH (answer self.now.t1.table.entries) result.0 }
        ensures second { Counts P.P2.R.value P.P2.R.WIDTH (answer self.now.t2.table.entries) result.1 }
    {
        (self.t1.address_count(), self.t2.address_count())
    }
}
