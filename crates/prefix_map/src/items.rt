//! Prefixes with zero host bits.
ghost use Rattle.std.specs.Prelude.{◌≡◌, ◌≤◌};
ghost use Rattle.prefix_model.specs.TableViews.{key_of};
ghost use Rattle.prefix_map.specs.Items.{IsItem};

use prefix_table::PrefixBits;

/// The prefix of the first `len` bits of a key.
pub(crate) fn prefix_of<P: PrefixBits>(key: P::R, len: u32) -> P
    requires { len ≤ P.R.WIDTH }
    ensures item { IsItem P.R.WIDTH P.PrefixKey result (key_of (P.R.bits key) len) }
    ensures length { P.prefix_len result ≡ len }
{
    P::from_repr_len(key, len as u8)
}

/// The prefix of the same key with zero host bits.
pub fn bare<P: PrefixBits>(prefix: &P) -> P
    requires { P.prefix_len prefix.now ≤ P.R.WIDTH }
    ensures key { P.key result ≡ P.key prefix.now }
    ensures itself { IsItem P.R.WIDTH P.PrefixKey result (P.key result) }
    ensures item { IsItem P.R.WIDTH P.PrefixKey result (P.key prefix.now) }
    ensures length { P.prefix_len result ≡ P.prefix_len prefix.now }
{
    prefix_of::<P>(prefix.repr(), u32::from(prefix.prefix_len()))
}
