//! Aggregation of tables: the fewest entries with the same answers.
#![tactic(auto)]

mod bits;
mod collecting;
mod consistent;
mod coverage;
mod heap;
mod keeping;
pub mod laws;
mod parts;
mod places;
pub mod rows;
mod sets;
mod walks;
mod writing;

ghost use Rattle.std.specs.Prelude.{◌≡◌, ◌<◌, ◌^◌, IfOk};
ghost use Rattle.std.specs.FinMap as map;
ghost use Rattle.std.proofs.lemmas.Map.Lookups.{CmpEqualImpliesEq};
ghost use Rattle.prefix_model.specs.Tables.{HasWidth};
ghost use Rattle.prefix_model.specs.LeastTable.{least_table};
ghost use Rattle.prefix_model.specs.Aggregates.{fill_table, consistent_set, consistent_table, IsSetAggregate};
ghost use Rattle.prefix_model.specs.Positions.{position_set};

use crate::consistent::store_changed;
pub use bits::{
    fold_children, fold_coverage, fold_l1, fold_l2, fold_l3, fold_l4, member_coverage,
    parent_coverage, push_l0, push_l1, push_l2, push_l3, push_l4,
};
pub use coverage::{address_count, covers_in_aggregate, level_mask};
use prefix_table::places::root_place;
use prefix_table::{Bits, Table, TableWriter};
pub use sets::ChangeSets;
use std::alloc::{AllocError, Global};
pub use walks::{change_sets, place_changes};

/// The table with the fewest entries that has the same answer at each address as this one.
///
/// The only error is a refusal of memory; the table that is read stays as it is.
pub fn aggregate_map<R: Bits, T: Clone + Ord>(
    alloc: Global,
    table: &Table<T>,
) -> Result<Table<T>, AllocError>
    requires width { HasWidth R.WIDTH table.now.entries }

    // The order of values is lawful: values that tie are equal (it is total as every `Ord`), and a clone equals its source.
    requires order { CmpEqualImpliesEq T.cmp }
    requires clones { (x y : T) → T.is_clone x y → y ≡ x }

    ensures least { IfOk result (λ new. new.entries ≡ least_table T.cmp R.WIDTH table.now.entries) }
    ensures kept { IfOk result (λ new. new.kept ≡ position_set new.entries) }
{
    let sets = change_sets::<R, T>(alloc, table, None)?;
    place_changes::<R, T>(alloc, table, None, &sets)
}

/// The table with the fewest entries that has the same answer at each address as this one, and the default where this
/// one has none.
///
/// The table has fewer than `MAX_ENTRIES`. The only error is a refusal of memory; the table that is read stays as it is.
pub fn aggregate_fill_map<R: Bits, T: Clone + Ord>(
    alloc: Global,
    table: &Table<T>,
    default: &T,
) -> Result<Table<T>, AllocError>
    requires width { HasWidth R.WIDTH table.now.entries }
    requires room { map.len table.now.entries < 2 ^ 62 }
    requires order { CmpEqualImpliesEq T.cmp }
    requires clones { (x y : T) → T.is_clone x y → y ≡ x }
    ensures filled { IfOk result (λ new. new.entries ≡ fill_table T.cmp R.WIDTH table.now.entries default.now) }
    ensures kept { IfOk result (λ new. new.kept ≡ position_set new.entries) }
{
    let sets = change_sets::<R, T>(alloc, table, Some(default))?;
    place_changes::<R, T>(alloc, table, Some(default), &sets)
}

/// The entries whose nearest entry above has another value, or is absent.
///
/// The only error is a refusal of memory; the table that is read stays as it is.
pub fn aggregate_consistent_map<R: Bits, T: Clone + Eq>(
    alloc: Global,
    table: &Table<T>,
) -> Result<Table<T>, AllocError>
    requires width { HasWidth R.WIDTH table.now.entries }
    requires clones { (x y : T) → T.is_clone x y → y ≡ x }
    ensures consistent { IfOk result (λ new. new.entries ≡ consistent_table T.eq table.now.entries) }
    ensures kept { IfOk result (λ new. new.kept ≡ position_set new.entries) }
{
    let root = root_place(table);
    let mut consistent = TableWriter::new(alloc);
    store_changed(
        table,
        &mut consistent,
        Some(root),
        R::zeros().keep(0),
        0,
        None,
    )?;
    Ok(consistent.into_table())
}

/// The keys all of whose addresses are covered by the set, and whose parent, if there is one, is not wholly covered.
///
/// The only error is a refusal of memory; the set that is read stays as it is.
pub fn aggregate_set<R: Bits>(alloc: Global, table: &Table<()>) -> Result<Table<()>, AllocError>
    requires { HasWidth R.WIDTH table.now.entries }
    ensures members { IfOk result (λ new. IsSetAggregate R.WIDTH table.now.entries new.entries) }
    ensures kept { IfOk result (λ new. new.kept ≡ position_set new.entries) }
{
    aggregate_map::<R, ()>(alloc, table)
}

/// The members that have no proper prefix among the members.
///
/// The only error is a refusal of memory; the set that is read stays as it is.
pub fn aggregate_consistent_set<R: Bits>(
    alloc: Global,
    table: &Table<()>,
) -> Result<Table<()>, AllocError>
    requires { HasWidth R.WIDTH table.now.entries }
    ensures consistent { IfOk result (λ new. new.entries ≡ consistent_set table.now.entries) }
    ensures kept { IfOk result (λ new. new.kept ≡ position_set new.entries) }
{
    aggregate_consistent_map::<R, ()>(alloc, table)
}
