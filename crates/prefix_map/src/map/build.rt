//! Maps made of entries.
ghost use Rattle.std.specs.Prelude.{◌≡◌, ◌≤◌, IfOk};
ghost use Rattle.std.specs.Ordering.{eq_by_cmp};
ghost use Rattle.prefix_model.specs.Keys.{key_cmp};

use crate::map::PrefixMap;
use prefix_table::PrefixBits;
use std::alloc::{AllocError, Global};

impl<P: PrefixBits + Drop, T: Drop> PrefixMap<P, T> {
    ghost use Rattle.std.specs.Prelude.{map};
    ghost use Rattle.std.specs.Iterator.{Drains, HoldsAlong, IsFinite};
    ghost use Rattle.std.specs.List.{All};
    ghost use Rattle.std.specs.FinMap.{empty};
    ghost use Rattle.prefix_model.specs.Building.{insert_all};
    ghost use Rattle.prefix_model.specs.Positions.{position_set};

    /// The map of these entries, inserted in order: a later one of a key replaces the earlier.
    ///
    /// There are at most [`MAX_ENTRIES`](prefix_table::MAX_ENTRIES) items: more end in the same error as a refusal of
    /// memory.
    pub fn from_entries<I: Iterator<Item = (P, T)>>(
        alloc: Global,
        iter: I,
    ) -> Result<Self, AllocError>
        requires callable { I.can_next iter }
        requires finite { IsFinite (I.remaining iter) }
        requires fits { HoldsAlong I.next_gives iter (All (λ item. P.prefix_len item.0 ≤ P.R.WIDTH)) }
        ensures entries { IfOk result (λ made. (items : _) × Drains I.next_gives iter items
            × (made.entries ≡ insert_all empty (map (λ item. (P.key item.0, item.1)) items))) }
        ensures kept { IfOk result (λ made. made.kept ≡ position_set made.entries) }
    {
        let mut iter = iter;
        let mut made = PrefixMap::new(alloc);
        while let Some(item) = iter.next() {
            let (prefix, value) = item;
            if made.insert(prefix, value).is_err() {
                return Err(AllocError);
            }
        }
        Ok(made)
    }
}

impl<P: PrefixBits + Drop, T> PrefixMap<P, T> {
    ghost use Rattle.prefix_model.specs.Positions.{position_set};

    /// An equal map. It keeps the positions of its entries alone.
    ///
    /// The only error is a refusal of memory, for a node or for the clone of a value.
    pub fn try_clone(&self) -> Result<Self, AllocError>
    where
        T: Clone,
        requires { (x y : T) → T.is_clone x y → y ≡ x }
        ensures entries { IfOk result (λ copy. copy.entries ≡ self.now.entries) }
        ensures kept { IfOk result (λ copy. copy.kept ≡ position_set self.now.entries) }
    {
        let mut copy = PrefixMap::new(self.table.allocator());
        let mut entries = self.iter();
        while let Some((prefix, value)) = entries.next() {
            let value = value.clone()?;
            if copy.insert(prefix, value).is_err() {
                return Err(AllocError);
            }
        }
        Ok(copy)
    }
}

impl<P: PrefixBits + Drop, T: PartialEq> PartialEq for PrefixMap<P, T> {
    ghost use Rattle.std.specs.Prelude.{◌&&◌};
    ghost use Rattle.std.specs.Cmp.{on_per, and_per, partial_equiv_from_equiv, eq_by_cmp_equiv};
    ghost use Rattle.std.specs.Cmp.Lexicographic.{pointwise, lists_per};
    ghost use Rattle.std.specs.FinMap.{entries};
    ghost use Rattle.std.specs.Ordering.{eq_by_cmp};
    ghost use Rattle.prefix_model.specs.Keys.{key_cmp};
    ghost use Rattle.prefix_model.proofs.Order.{key_total};

    ghost eq = { λ m n. pointwise (λ p q. eq_by_cmp key_cmp p.0 q.0 && T.eq p.1 q.1) (entries m.entries) (entries n.entries) };

    ghost laws = { on_per (λ m. entries m.entries) (lists_per (and_per (on_per (λ p. p.0) (partial_equiv_from_equiv (eq_by_cmp_equiv key_total))) (on_per (λ p. p.1) T.laws))) };

    fn eq(&self, other: &Self) -> bool {
        let mut others = other.iter();
        let mut own = self.iter();
        while let Some((prefix, value)) = own.next() {
            match others.next() {
                Some((other_prefix, other_value)) => {
                    if !is_same(&prefix, &other_prefix) || value != other_value {
                        return false;
                    }
                }
                None => return false,
            }
        }
        others.next().is_none()
    }
}

impl<P: PrefixBits + Drop, T: Eq> Eq for PrefixMap<P, T> {
    ghost use Rattle.std.specs.Cmp.{on_equiv, and_equiv, eq_by_cmp_equiv};
    ghost use Rattle.std.specs.Cmp.Lexicographic.{lists_equiv};
    ghost use Rattle.std.specs.FinMap.{entries};
    ghost use Rattle.prefix_model.proofs.Order.{key_total};

    ghost laws = { on_equiv (λ m. entries m.entries) (lists_equiv (and_equiv (on_equiv (λ p. p.0) (eq_by_cmp_equiv key_total)) (on_equiv (λ p. p.1) T.Eq.laws))) };
}

/// Whether the keys of two prefixes are one.
fn is_same<P: PrefixBits>(a: &P, b: &P) -> bool
    requires a { P.prefix_len a.now ≤ P.R.WIDTH }
    requires b { P.prefix_len b.now ≤ P.R.WIDTH }
    ensures { result ≡ eq_by_cmp key_cmp (P.key a.now) (P.key b.now) }
{
    a.contains(b) && b.contains(a)
}
