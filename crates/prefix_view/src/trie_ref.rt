//! Views of live tables.
ghost use Rattle.std.specs.Prelude.{◌≡◌, ◌+◌, ◌*◌, ◌/◌, ◌^◌, ◌<◌, ◌≤◌, ⊤, ℕ, true, [], length, take};
ghost use Rattle.std.specs.FinMap as map;
ghost use Rattle.prefix_model.specs.Keys.{KeyBits, low_bits, padded};
ghost use Rattle.prefix_model.specs.Tables.{HasWidth};
ghost use Rattle.prefix_view.specs.LiveViews.{IsTrieRef, seen_at};
ghost use Rattle.prefix_model.specs.Views.{whole};

use crate::view::{AsView, TrieView};
use prefix_map::{PrefixMap, PrefixSet};
use prefix_table::{Bits, K, NodeAt, PrefixBits, Table, child_cover_mask, data_cover_mask};
use std::alloc::AllocError;
use std::marker::PhantomData;

/// A view of a live table. Its values are references to the table's.
pub struct TrieRef<'a, P: PrefixBits, T> {
    table: &'a Table<T>,
    // The number of the node's name.
    at: usize,
    // The number that the bits of the place spell.
    place: u128,
    prefix_len: u32,
    prefix: PhantomData<P>,

    ghost placed: { ∥ IsTrieRef P.R.WIDTH table.now at place prefix_len ∥₁ },
}

impl<'a, P: PrefixBits, T> Clone for TrieRef<'a, P, T> {
    ghost is_clone = { λ old new. new ≡ old };

    ghost is_infallible = { λ _. ⊤ };

    fn clone(&self) -> Result<TrieRef<'a, P, T>, AllocError> {
        Ok(TrieRef {
            table: self.table,
            at: self.at,
            place: self.place,
            prefix_len: self.prefix_len,
            prefix: PhantomData,
        })
    }
}

impl<'a, P: PrefixBits, T> Copy for TrieRef<'a, P, T> {}

/// The key of `len` bits that spell a number, with zeros behind them.
pub fn key_of_number<R: Bits>(n: u128, len: u32) -> R
    requires within { len ≤ R.WIDTH }
    requires small { n < 2 ^ len }
    ensures { R.bits result ≡ padded R.WIDTH (low_bits len n) }
{
    if len == 0 {
        return R::zeros();
    }
    R::from_number(n << (R::WIDTH - len))
}

/// The number that the first `to` bits of a key spell, where the first `from` are known.
pub fn longer_number<R: Bits>(n: u128, key: R, from: u32, to: u32) -> u128
    requires order { from ≤ to }
    requires within { to ≤ R.WIDTH }
    requires small { n < 2 ^ from }
    requires known { low_bits from n ≡ take from (R.bits key) }
    ensures bits { low_bits to result ≡ take to (R.bits key) }
    ensures small { result < 2 ^ to }
{
    let mut number = n;
    for i in from..to {
        number = 2 * number + u128::from(key.bit(i));
    }
    number
}

impl<'a, P: PrefixBits, T> TrieRef<'a, P, T> {
    /// The view of a whole table, whose keys and kept positions are no longer than an address.
    pub(crate) fn new_root(table: &'a Table<T>) -> TrieRef<'a, P, T>
        requires entries { HasWidth P.R.WIDTH table.now.entries }
        requires kept { (p : KeyBits) → map.contains_key table.now.kept p ≡ true → length p ≤ P.R.WIDTH }
        ensures { seen_at result.table.now result.place result.prefix_len ≡ whole table.now.entries table.now.kept }
    {
        TrieRef {
            table,
            at: table.root().number(),
            place: 0,
            prefix_len: 0,
            prefix: PhantomData,
        }
    }
}

impl<'a, P: PrefixBits, T> TrieView for TrieRef<'a, P, T> {
    type P = P;

    type T = &'a T;

    ghost Value = { T };

    ghost value_of = { λ r. r.now };

    ghost seen = { λ v. seen_at v.table.now v.place v.prefix_len };

    fn depth(&self) -> u32 {
        self.prefix_len / K * K
    }

    fn prefix_len(&self) -> u32 {
        self.prefix_len
    }

    fn key(&self) -> P::R {
        key_of_number(self.place, self.prefix_len)
    }

    fn data_bitmap(&self) -> u32 {
        let mask = data_cover_mask(self.depth(), self.key(), self.prefix_len);
        self.table.node(NodeAt::of_number(self.at)).data_bits & mask
    }

    fn child_bitmap(&self) -> u32 {
        let mask = child_cover_mask(self.depth(), self.key(), self.prefix_len);
        self.table.node(NodeAt::of_number(self.at)).child_bits & mask
    }

    fn get_data(&self, data_bit: u32) -> &'a T {
        self.table.value(NodeAt::of_number(self.at), data_bit)
    }

    fn get_child(&self, child_bit: u32) -> Self {
        let node = self.place >> (self.prefix_len - self.depth());
        match self.table.child(NodeAt::of_number(self.at), child_bit) {
            Some(child) => TrieRef {
                table: self.table,
                at: child.number(),
                place: node * 32 + u128::from(child_bit),
                prefix_len: self.depth() + K,
                prefix: PhantomData,
            },
            None => unreachable!(),
        }
    }

    fn reposition(&mut self, key: P::R, prefix_len: u32) {
        self.place = longer_number(self.place, key, self.prefix_len, prefix_len);
        self.prefix_len = prefix_len;
    }

    ghost use Rattle.prefix_view.specs.LiveLaws.{live_place};

    ghost place_law = { λ v. live_place P.R.WIDTH v.table.now v.at v.place v.prefix_len v.placed };
}

impl<'a, P: PrefixBits, T> AsView for TrieRef<'a, P, T> {
    type View = TrieRef<'a, P, T>;

    ghost shows = { λ s v. seen_at v.table.now v.place v.prefix_len ≡ seen_at s.table.now s.place s.prefix_len };

    ghost use Rattle.std.proofs.Common.{◌∙◌, sym};

    ghost one_law = { λ s v w e f. e ∙ sym f };

    fn view(self) -> TrieRef<'a, P, T> {
        TrieRef {
            table: self.table,
            at: self.at,
            place: self.place,
            prefix_len: self.prefix_len,
            prefix: PhantomData,
        }
    }
}

impl<'a, P: PrefixBits, T> AsView for &'a PrefixMap<P, T> {
    type View = TrieRef<'a, P, T>;

    ghost shows = { λ s v. seen_at v.table.now v.place v.prefix_len ≡ whole s.now.entries s.now.kept };

    ghost use Rattle.std.proofs.Common.{◌∙◌, sym};

    ghost one_law = { λ s v w e f. e ∙ sym f };

    fn view(self) -> TrieRef<'a, P, T> {
        TrieRef::new_root(self.table())
    }
}

impl<'a, P: PrefixBits> AsView for &'a PrefixSet<P> {
    type View = TrieRef<'a, P, ()>;

    ghost shows = { λ s v. seen_at v.table.now v.place v.prefix_len ≡ whole s.now.entries s.now.kept };

    ghost use Rattle.std.proofs.Common.{◌∙◌, sym};

    ghost one_law = { λ s v w e f. e ∙ sym f };

    fn view(self) -> TrieRef<'a, P, ()> {
        TrieRef::new_root(self.as_map().table())
    }
}
