//! Prefixes of either family that are one of a family with zero host bits.
ghost use Rattle.std.specs.Prelude.{◌≡◌, length};
ghost use Rattle.either.specs.declared.Either.TheVariants.{Left, Right};
ghost use Rattle.prefix_model.specs.Keys.{padded};
ghost use Rattle.prefix_joint_walks.specs.Joint.{HasZeroHostBits};

use prefix_joint_walks::JointPrefixBits;

/// The prefix of either family that is this one of the first, which has zero host bits.
pub fn of_first<P: JointPrefixBits>(prefix: &P::P1) -> P
    requires length { P.P1.prefix_len prefix.now ≡ length (P.P1.key prefix.now) }
    requires bits { P.P1.bits prefix.now ≡ padded P.P1.R.WIDTH (P.P1.key prefix.now) }
    ensures prefix { P.prefix result ≡ Left prefix.now }
    ensures host_bits { HasZeroHostBits P.P1.R.WIDTH P.P1.PrefixKey P.P2.R.WIDTH P.P2.PrefixKey (P.prefix result) }
{
    P::from_p1(prefix)
}

/// The prefix of either family that is this one of the second, which has zero host bits.
pub fn of_second<P: JointPrefixBits>(prefix: &P::P2) -> P
    requires length { P.P2.prefix_len prefix.now ≡ length (P.P2.key prefix.now) }
    requires bits { P.P2.bits prefix.now ≡ padded P.P2.R.WIDTH (P.P2.key prefix.now) }
    ensures prefix { P.prefix result ≡ Right prefix.now }
    ensures host_bits { HasZeroHostBits P.P1.R.WIDTH P.P1.PrefixKey P.P2.R.WIDTH P.P2.PrefixKey (P.prefix result) }
{
    P::from_p2(prefix)
}
