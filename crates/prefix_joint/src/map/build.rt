//! Joint maps made of entries.
ghost use Rattle.std.specs.Prelude.{◌≡◌, ◌↔◌, IsTrue, IfOk, OnOk};
ghost use Rattle.either.specs.Either.{map_either};
ghost use Rattle.prefix_joint_walks.specs.Joint.{Fits, with_entry_at};

use crate::map::JointPrefixMap;
use either::{Left, Right};
use prefix_joint_walks::JointPrefixBits;
use prefix_table::fits;
use std::alloc::{AllocError, Global};

impl<P: JointPrefixBits + Drop, T: Drop> JointPrefixMap<P, T> {
    ghost use Rattle.std.specs.Prelude.{map};
    ghost use Rattle.std.specs.Iterator.{Drains, HoldsAlong, IsFinite};
    ghost use Rattle.std.specs.List.{All};
    ghost use Rattle.prefix_joint_walks.specs.Joint.{all_inserted, nothing};

    /// The map of these entries, inserted in order: a later one of a key replaces the earlier.
    ///
    /// There are at most [`MAX_ENTRIES`](prefix_table::MAX_ENTRIES) items of a family: more end in the same error as a
    /// refusal of memory.
    pub fn from_entries<I: Iterator<Item = (P, T)>>(
        alloc: Global,
        iter: I,
    ) -> Result<Self, AllocError>
        requires callable { I.can_next iter }
        requires finite { IsFinite (I.remaining iter) }
        requires fits { HoldsAlong I.next_gives iter (All (λ item. Fits P.P1.R.WIDTH P.P1.PrefixKey P.P2.R.WIDTH P.P2.PrefixKey (P.prefix item.0))) }
        ensures { IfOk result (λ made. (items : _) × Drains I.next_gives iter items
            × (made ≡ all_inserted nothing (map (λ item. (map_either P.P1.key P.P2.key (P.prefix item.0), item.1)) items))) }
    {
        let mut iter = iter;
        let mut made = JointPrefixMap::new(alloc);
        while let Some(item) = iter.next() {
            store_item(&mut made, item)?;
        }
        Ok(made)
    }
}

/// Inserts an entry. A prefix that does not fit is refused too, and every refusal is the error of one of memory.
fn store_item<P: JointPrefixBits + Drop, T: Drop>(
    made: &mut JointPrefixMap<P, T>,
    item: (P, T),
) -> Result<(), AllocError>
    ensures { OnOk result (made.new ≡ with_entry_at made.old (map_either P.P1.key P.P2.key (P.prefix item.0)) item.1) }
{
    let (prefix, value) = item;
    if !is_fitting(&prefix) {
        return Err(AllocError);
    }
    match made.insert(prefix, value) {
        Ok(_) => Ok(()),
        Err(_) => Err(AllocError),
    }
}

/// Whether the length of a prefix is at most the width of its family.
pub fn is_fitting<P: JointPrefixBits>(prefix: &P) -> bool
    ensures { IsTrue result ↔ Fits P.P1.R.WIDTH P.P1.PrefixKey P.P2.R.WIDTH P.P2.PrefixKey (P.prefix prefix.now) }
{
    match prefix.p1_or_p2_ref() {
        Left(p) => fits(p),
        Right(p) => fits(p),
    }
}

impl<P: JointPrefixBits, T> JointPrefixMap<P, T> {
    ghost use Rattle.prefix_model.specs.Positions.{position_set};

    /// An equal map. It keeps the positions of its entries alone.
    ///
    /// The only error is a refusal of memory, for a node or for the clone of a value.
    pub fn try_clone(&self) -> Result<Self, AllocError>
    where
        T: Clone,
        requires { (x y : T) → T.is_clone x y → y ≡ x }
        ensures entries { IfOk result (λ copy. (copy.t1.entries ≡ self.now.t1.entries) × (copy.t2.entries ≡ self.now.t2.entries)) }
        ensures kept { IfOk result (λ copy. (copy.t1.kept ≡ position_set self.now.t1.entries) × (copy.t2.kept ≡ position_set self.now.t2.entries)) }
    {
        let t1 = self.t1.try_clone()?;
        let t2 = self.t2.try_clone()?;
        Ok(JointPrefixMap { t1, t2 })
    }
}

impl<P: JointPrefixBits, T: PartialEq> PartialEq for JointPrefixMap<P, T> {
    ghost use Rattle.std.specs.Prelude.{◌&&◌};
    ghost use Rattle.std.specs.Cmp.{on_per, and_per, partial_equiv_from_equiv, eq_by_cmp_equiv};
    ghost use Rattle.std.specs.Cmp.Lexicographic.{pointwise, lists_per};
    ghost use Rattle.std.specs.FinMap.{entries};
    ghost use Rattle.std.specs.Ordering.{eq_by_cmp};
    ghost use Rattle.prefix_model.specs.Keys.{key_cmp};
    ghost use Rattle.prefix_model.proofs.Order.{key_total};

    ghost eq = { λ m n. pointwise (λ p q. eq_by_cmp key_cmp p.0 q.0 && T.eq p.1 q.1) (entries m.t1.entries) (entries n.t1.entries)
        && pointwise (λ p q. eq_by_cmp key_cmp p.0 q.0 && T.eq p.1 q.1) (entries m.t2.entries) (entries n.t2.entries) };

    ghost laws = { and_per
        (on_per (λ m. entries m.t1.entries) (lists_per (and_per (on_per (λ p. p.0) (partial_equiv_from_equiv (eq_by_cmp_equiv key_total))) (on_per (λ p. p.1) T.laws))))
        (on_per (λ m. entries m.t2.entries) (lists_per (and_per (on_per (λ p. p.0) (partial_equiv_from_equiv (eq_by_cmp_equiv key_total))) (on_per (λ p. p.1) T.laws)))) };

    fn eq(&self, other: &Self) -> bool {
        self.t1 == other.t1 && self.t2 == other.t2
    }
}

impl<P: JointPrefixBits, T: Eq> Eq for JointPrefixMap<P, T> {
    ghost use Rattle.std.specs.Cmp.{on_equiv, and_equiv, eq_by_cmp_equiv};
    ghost use Rattle.std.specs.Cmp.Lexicographic.{lists_equiv};
    ghost use Rattle.std.specs.FinMap.{entries};
    ghost use Rattle.prefix_model.proofs.Order.{key_total};

    ghost laws = { and_equiv
        (on_equiv (λ m. entries m.t1.entries) (lists_equiv (and_equiv (on_equiv (λ p. p.0) (eq_by_cmp_equiv key_total)) (on_equiv (λ p. p.1) T.Eq.laws))))
        (on_equiv (λ m. entries m.t2.entries) (lists_equiv (and_equiv (on_equiv (λ p. p.0) (eq_by_cmp_equiv key_total)) (on_equiv (λ p. p.1) T.Eq.laws)))) };
}
