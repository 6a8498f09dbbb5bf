//! Joint sets made of members.
ghost use Rattle.std.specs.Prelude.{◌≡◌, IfOk, OnOk};
ghost use Rattle.either.specs.Either.{map_either};
ghost use Rattle.prefix_joint_walks.specs.Joint.{with_entry_at};

use crate::JointPrefixSet;
use prefix_joint::JointPrefixBits;
use prefix_joint::map::is_fitting;
use std::alloc::{AllocError, Global};

impl<P: JointPrefixBits + Drop> JointPrefixSet<P> {
    ghost use Rattle.std.specs.Prelude.{map};
    ghost use Rattle.std.specs.Iterator.{Drains, HoldsAlong, IsFinite};
    ghost use Rattle.std.specs.List.{All};
    ghost use Rattle.prefix_joint_walks.specs.Joint.{Fits, all_inserted, nothing};

    /// The set of these members.
    ///
    /// There are at most [`MAX_ENTRIES`](prefix_table::MAX_ENTRIES) items of a family: more end in the same error as a
    /// refusal of memory.
    pub fn from_entries<I: Iterator<Item = P>>(alloc: Global, iter: I) -> Result<Self, AllocError>
        requires callable { I.can_next iter }
        requires finite { IsFinite (I.remaining iter) }
        requires fits { HoldsAlong I.next_gives iter (All (λ item. Fits P.P1.R.WIDTH P.P1.PrefixKey P.P2.R.WIDTH P.P2.PrefixKey (P.prefix item))) }
        ensures { IfOk result (λ made. (items : _) × Drains I.next_gives iter items
            × (made ≡ all_inserted nothing (map (λ item. (map_either P.P1.key P.P2.key (P.prefix item), tt)) items))) }
    {
        let mut iter = iter;
        let mut made = JointPrefixSet::new(alloc);
        while let Some(prefix) = iter.next() {
            store_member(&mut made, prefix)?;
        }
        Ok(made)
    }
}

/// Makes a prefix a member. One that does not fit is refused too, and every refusal is the error of one of memory.
fn store_member<P: JointPrefixBits + Drop>(
    made: &mut JointPrefixSet<P>,
    prefix: P,
) -> Result<(), AllocError>
    ensures { OnOk result (made.new ≡ with_entry_at made.old (map_either P.P1.key P.P2.key (P.prefix prefix)) tt) }
{
    if !is_fitting(&prefix) {
        return Err(AllocError);
    }
    match made.insert(prefix) {
        Ok(_) => Ok(()),
        Err(_) => Err(AllocError),
    }
}

impl<P: JointPrefixBits> JointPrefixSet<P> {
    ghost use Rattle.prefix_model.specs.Positions.{position_set};

    /// An equal set. It keeps the positions of its members alone.
    ///
    /// The only error is a refusal of memory.
    pub fn try_clone(&self) -> Result<Self, AllocError>
        ensures entries { IfOk result (λ copy. (copy.t1.entries ≡ self.now.t1.entries) × (copy.t2.entries ≡ self.now.t2.entries)) }
        ensures kept { IfOk result (λ copy. (copy.t1.kept ≡ position_set self.now.t1.entries) × (copy.t2.kept ≡ position_set self.now.t2.entries)) }
    {
        let t1 = self.t1.try_clone()?;
        let t2 = self.t2.try_clone()?;
        Ok(JointPrefixSet { t1, t2 })
    }
}

impl<P: JointPrefixBits> PartialEq for JointPrefixSet<P> {
    ghost use Rattle.std.specs.Prelude.{◌&&◌};
    ghost use Rattle.std.specs.Cmp.{on_per, and_per, partial_equiv_from_equiv, eq_by_cmp_equiv};
    ghost use Rattle.std.specs.Cmp.Lexicographic.{pointwise, lists_per};
    ghost use Rattle.std.specs.FinMap.{keys};
    ghost use Rattle.std.specs.Ordering.{eq_by_cmp};
    ghost use Rattle.prefix_model.specs.Keys.{key_cmp};
    ghost use Rattle.prefix_model.proofs.Order.{key_total};

    ghost eq = { λ m n. pointwise (eq_by_cmp key_cmp) (keys m.t1.entries) (keys n.t1.entries) && pointwise (eq_by_cmp key_cmp) (keys m.t2.entries) (keys n.t2.entries) };

    ghost laws = { and_per (on_per (λ m. keys m.t1.entries) (lists_per (partial_equiv_from_equiv (eq_by_cmp_equiv key_total))))
        (on_per (λ m. keys m.t2.entries) (lists_per (partial_equiv_from_equiv (eq_by_cmp_equiv key_total)))) };

    fn eq(&self, other: &Self) -> bool {
        self.t1 == other.t1 && self.t2 == other.t2
    }
}

impl<P: JointPrefixBits> Eq for JointPrefixSet<P> {
    ghost use Rattle.std.specs.Cmp.{on_equiv, and_equiv, eq_by_cmp_equiv};
    ghost use Rattle.std.specs.Cmp.Lexicographic.{lists_equiv};
    ghost use Rattle.std.specs.FinMap.{keys};
    ghost use Rattle.prefix_model.proofs.Order.{key_total};

    ghost laws = { and_equiv (on_equiv (λ m. keys m.t1.entries) (lists_equiv (eq_by_cmp_equiv key_total)))
        (on_equiv (λ m. keys m.t2.entries) (lists_equiv (eq_by_cmp_equiv key_total))) };
}
