//! Questions about what covers a prefix, and about coverage.
ghost use Rattle.std.specs.Prelude.{◌≡◌, ◌↔◌, IsSome, IsTrue, IfSome, slice_get};
ghost use Rattle.std.specs.Option.{option_map};
ghost use Rattle.either.specs.Either.{MatchEither, map_either};

use crate::JointPrefixSet;
use either::{Left, Right};
use prefix_joint::{JointPrefix, JointPrefixBits};
use prefix_table::Prefix;

impl<P: JointPrefixBits> JointPrefixSet<P> {
    ghost use Rattle.prefix_model.specs.Coverage.{IsCovered};
    ghost use Rattle.prefix_joint_walks.specs.Joint.{Fits, HasZeroHostBits, IsLongestAt, joint_fronts, shortest_at};

    /// The longest member that the prefix's key begins with; `None` where there is none.
    pub fn get_lpm(&self, prefix: &P) -> Option<P>
        requires { Fits P.P1.R.WIDTH P.P1.PrefixKey P.P2.R.WIDTH P.P2.PrefixKey (P.prefix prefix.now) }
        ensures longest { IsLongestAt self.now (map_either P.P1.key P.P2.key (P.prefix prefix.now)) (option_map (λ found. map_either P.P1.key P.P2.key (P.prefix found)) result) }
        ensures host_bits { IfSome result (λ found. HasZeroHostBits P.P1.R.WIDTH P.P1.PrefixKey P.P2.R.WIDTH P.P2.PrefixKey (P.prefix found)) }
    {
        match prefix.p1_or_p2_ref() {
            Left(p) => {
                let found = self.t1.get_lpm(p)?;
                Some(P::from_p1(&found))
            }
            Right(p) => {
                let found = self.t2.get_lpm(p)?;
                Some(P::from_p2(&found))
            }
        }
    }

    /// The shortest member that the prefix's key begins with; `None` where there is none.
    pub fn get_spm(&self, prefix: &P) -> Option<P>
        requires { Fits P.P1.R.WIDTH P.P1.PrefixKey P.P2.R.WIDTH P.P2.PrefixKey (P.prefix prefix.now) }
        ensures first { option_map (λ found. map_either P.P1.key P.P2.key (P.prefix found)) result
            ≡ option_map (λ entry. entry.0) (shortest_at self.now (map_either P.P1.key P.P2.key (P.prefix prefix.now))) }
        ensures host_bits { IfSome result (λ found. HasZeroHostBits P.P1.R.WIDTH P.P1.PrefixKey P.P2.R.WIDTH P.P2.PrefixKey (P.prefix found)) }
    {
        match prefix.p1_or_p2_ref() {
            Left(p) => {
                let found = self.t1.get_spm(p)?;
                Some(P::from_p1(&found))
            }
            Right(p) => {
                let found = self.t2.get_spm(p)?;
                Some(P::from_p2(&found))
            }
        }
    }

    /// Whether a member is one that the prefix's key begins with.
    pub fn is_covered(&self, prefix: &P) -> bool
        requires { Fits P.P1.R.WIDTH P.P1.PrefixKey P.P2.R.WIDTH P.P2.PrefixKey (P.prefix prefix.now) }
        ensures { IsTrue result ↔ IsSome (slice_get (joint_fronts self.now (map_either P.P1.key P.P2.key (P.prefix prefix.now))) 0) }
    {
        match prefix.p1_or_p2_ref() {
            Left(p) => self.t1.is_covered(p),
            Right(p) => self.t2.is_covered(p),
        }
    }

    /// Whether each address that extends the prefix's key is covered by a member.
    pub fn is_covered_in_aggregate(&self, prefix: &P) -> bool
        requires { Fits P.P1.R.WIDTH P.P1.PrefixKey P.P2.R.WIDTH P.P2.PrefixKey (P.prefix prefix.now) }
        ensures { IsTrue result ↔ MatchEither (P.prefix prefix.now) (λ p. IsCovered P.P1.R.WIDTH self.now.t1.entries (P.P1.key p))
            (λ p. IsCovered P.P2.R.WIDTH self.now.t2.entries (P.P2.key p)) }
    {
        match prefix.p1_or_p2_ref() {
            Left(p) => self.t1.is_covered_in_aggregate(p),
            Right(p) => self.t2.is_covered_in_aggregate(p),
        }
    }
}

impl<P: JointPrefix> JointPrefixSet<P> {
    ghost use Rattle.prefix_model.specs.Counts.{Counts};
    ghost use Rattle.prefix_model.specs.Tables.{answer};

    /// How many addresses of each family a member covers; `None` where all are covered.
    pub fn address_count(&self) -> (Option<<P::P1 as Prefix>::R>, Option<<P::P2 as Prefix>::R>)
        ensures first { Counts P.P1.R.value P.P1.R.WIDTH (answer self.now.t1.entries) result.0 }
        ensures second { Counts P.P2.R.value P.P2.R.WIDTH (answer self.now.t2.entries) result.1 }
    {
        (self.t1.address_count(), self.t2.address_count())
    }
}
