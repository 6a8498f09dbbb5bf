//! Laws of the items that set operations give: their order and their hash agree with their equality, where those of their
//! parts do.
ghost use Rattle.prefix_joint.specs.Laws.{OrderAgrees, HashAgrees};
ghost use Rattle.prefix_joint.specs.UnionLaws.{TellsBothMaps};

use crate::map::{DifferenceItem, UnionItem};
use std::hash::Hash;

/// Values of an ordered type are equal exactly where they stand at one place in the order.
fn order_agrees<T: Ord>()
    ensures { OrderAgrees T.eq T.cmp }
{}

/// Values with a hash that are equal have one hash.
fn hash_agrees<T: Hash>()
    ensures { HashAgrees T.eq T.hash_input }
{}

/// The order and the hash of union items agree with their equality.
pub fn union_items_agree<'a, P: Ord + Hash, L: Ord + Hash + 'a, R: Ord + Hash + 'a>()
    ensures order { OrderAgrees ⟦<UnionItem<'a, P, L, R> as PartialEq>⟧.eq ⟦<UnionItem<'a, P, L, R> as Ord>⟧.cmp }
    ensures hash { HashAgrees ⟦<UnionItem<'a, P, L, R> as PartialEq>⟧.eq ⟦<UnionItem<'a, P, L, R> as Hash>⟧.hash_input }
{
    order_agrees::<UnionItem<'a, P, L, R>>();
    hash_agrees::<UnionItem<'a, P, L, R>>();
}

/// The order and the hash of difference items agree with their equality.
pub fn difference_items_agree<'a, P: Ord + Hash, L: Ord + Hash + 'a, R: Ord + Hash + 'a>()
    ensures order { OrderAgrees ⟦<DifferenceItem<'a, P, L, R> as PartialEq>⟧.eq ⟦<DifferenceItem<'a, P, L, R> as Ord>⟧.cmp }
    ensures hash { HashAgrees ⟦<DifferenceItem<'a, P, L, R> as PartialEq>⟧.eq ⟦<DifferenceItem<'a, P, L, R> as Hash>⟧.hash_input }
{
    order_agrees::<DifferenceItem<'a, P, L, R>>();
    hash_agrees::<DifferenceItem<'a, P, L, R>>();
}

/// A union of two maps has each key of either once, in key order, with the values that both maps have there.
pub fn unions_tell_both_maps<L, R>()
    ensures { TellsBothMaps L R }
{}
