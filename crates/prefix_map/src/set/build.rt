//! Sets made of members.
ghost use Rattle.std.specs.Prelude.{◌≡◌, ◌≤◌, IfOk};

use crate::set::PrefixSet;
use prefix_table::PrefixBits;
use std::alloc::{AllocError, Global};

impl<P: PrefixBits + Drop> PrefixSet<P> {
    ghost use Rattle.std.specs.Prelude.{map};
    ghost use Rattle.std.specs.Iterator.{Drains, HoldsAlong, IsFinite};
    ghost use Rattle.std.specs.List.{All};
    ghost use Rattle.std.specs.FinMap.{empty};
    ghost use Rattle.prefix_model.specs.Building.{insert_all};
    ghost use Rattle.prefix_model.specs.Positions.{position_set};

    /// The set of these members.
    ///
    /// There are at most [`MAX_ENTRIES`](prefix_table::MAX_ENTRIES) items: more end in the same error as a refusal of
    /// memory.
    pub fn from_entries<I: Iterator<Item = P>>(alloc: Global, iter: I) -> Result<Self, AllocError>
        requires callable { I.can_next iter }
        requires finite { IsFinite (I.remaining iter) }
        requires fits { HoldsAlong I.next_gives iter (All (λ item. P.prefix_len item ≤ P.R.WIDTH)) }
        ensures entries { IfOk result (λ made. (items : _) × Drains I.next_gives iter items
            × (made.entries ≡ insert_all empty (map (λ item. (P.key item, tt)) items))) }
        ensures kept { IfOk result (λ made. made.kept ≡ position_set made.entries) }
    {
        let mut iter = iter;
        let mut made = PrefixSet::new(alloc);
        while let Some(prefix) = iter.next() {
            if made.insert(prefix).is_err() {
                return Err(AllocError);
            }
        }
        Ok(made)
    }

    /// An equal set. It keeps the positions of its members alone.
    ///
    /// The only error is a refusal of memory.
    pub fn try_clone(&self) -> Result<Self, AllocError>
        ensures entries { IfOk result (λ copy. copy.entries ≡ self.now.entries) }
        ensures kept { IfOk result (λ copy. copy.kept ≡ position_set self.now.entries) }
    {
        match self.map.try_clone() {
            Ok(map) => Ok(PrefixSet { map }),
            Err(refused) => Err(refused),
        }
    }
}

impl<P: PrefixBits + Drop> PartialEq for PrefixSet<P> {
    ghost use Rattle.std.specs.Cmp.{on_per, partial_equiv_from_equiv, eq_by_cmp_equiv};
    ghost use Rattle.std.specs.Cmp.Lexicographic.{pointwise, lists_per};
    ghost use Rattle.std.specs.FinMap.{keys};
    ghost use Rattle.std.specs.Ordering.{eq_by_cmp};
    ghost use Rattle.prefix_model.specs.Keys.{key_cmp};
    ghost use Rattle.prefix_model.proofs.Order.{key_total};

    ghost eq = { λ m n. pointwise (eq_by_cmp key_cmp) (keys m.entries) (keys n.entries) };

    ghost laws = { on_per (λ m. keys m.entries) (lists_per (partial_equiv_from_equiv (eq_by_cmp_equiv key_total))) };

    fn eq(&self, other: &Self) -> bool {
        self.map == other.map
    }
}

impl<P: PrefixBits + Drop> Eq for PrefixSet<P> {
    ghost use Rattle.std.specs.Cmp.{on_equiv, eq_by_cmp_equiv};
    ghost use Rattle.std.specs.Cmp.Lexicographic.{lists_equiv};
    ghost use Rattle.std.specs.FinMap.{keys};
    ghost use Rattle.prefix_model.proofs.Order.{key_total};

    ghost laws = { on_equiv (λ m. keys m.entries) (lists_equiv (eq_by_cmp_equiv key_total)) };
}
