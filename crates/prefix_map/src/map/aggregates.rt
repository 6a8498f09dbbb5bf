//! Aggregations of a map. Each builds a new table beside the map's, which takes its place when it is whole: a refusal
//! leaves the map as it was.
ghost use Rattle.std.specs.Prelude.{◌≡◌, ◌<◌, ◌^◌, OnOk, OnErr};
ghost use Rattle.std.specs.FinMap as map;
ghost use Rattle.std.proofs.lemmas.Map.Lookups.{CmpEqualImpliesEq};
ghost use Rattle.prefix_model.specs.Aggregates.{fill_table, consistent_table};
ghost use Rattle.prefix_model.specs.LeastTable.{least_table};
ghost use Rattle.prefix_model.specs.Positions.{position_set};

use crate::map::PrefixMap;
use prefix_aggregate::{
    aggregate_consistent_map, aggregate_consistent_set, aggregate_fill_map, aggregate_map,
    aggregate_set,
};
use prefix_table::{PrefixBits, Table};
use std::alloc::AllocError;

impl<P: PrefixBits, T: Drop> PrefixMap<P, T> {
    ghost use Rattle.prefix_map.specs.MapViews.{map_view, FitsIn};

    /// Holds this table in place of the one before.
    pub(crate) fn hold(&mut self, table: Table<T>)
        requires { FitsIn P.WIDTH table }
        ensures { self.new ≡ map_view table }
    {
        let mut table = table;
        self.table.exchange(&mut table);
    }
}

impl<P: PrefixBits, T: Clone + Ord> PrefixMap<P, T> {
    /// The map becomes the one with the fewest entries that has the same answer at each address.
    ///
    /// The only error is a refusal of memory; the map is then as it was.
    pub fn aggregate(&mut self) -> Result<(), AllocError>
        // The order of values is lawful: values that tie are equal (it is total as every `Ord`), and a clone equals its source.
        requires order { CmpEqualImpliesEq T.cmp }
        requires clones { (x y : T) → T.is_clone x y → y ≡ x }
        ensures least { OnOk result (self.new.entries ≡ least_table T.cmp P.R.WIDTH self.old.entries) }
        ensures kept { OnOk result (self.new.kept ≡ position_set self.new.entries) }
        ensures unchanged { OnErr result (self.new ≡ self.old) }
    {
        let least = aggregate_map::<P::R, T>(self.table.allocator(), &self.table)?;
        self.hold(least);
        Ok(())
    }

    /// The map becomes the one with the fewest entries that has the same answer at each address, and this value where it
    /// had none.
    fn fill(&mut self, value: &T) -> Result<(), AllocError>
        requires room { map.len self.old.entries < 2 ^ 62 }
        requires order { CmpEqualImpliesEq T.cmp }
        requires clones { (x y : T) → T.is_clone x y → y ≡ x }
        ensures filled { OnOk result (self.new.entries ≡ fill_table T.cmp P.R.WIDTH self.old.entries value.now) }
        ensures kept { OnOk result (self.new.kept ≡ position_set self.new.entries) }
        ensures unchanged { OnErr result (self.new ≡ self.old) }
    {
        let filled = aggregate_fill_map::<P::R, T>(self.table.allocator(), &self.table, value)?;
        self.hold(filled);
        Ok(())
    }

    /// The map becomes the one with the fewest entries that has the same answer at each address, and what `default`
    /// answers where it had none. `default` is called once.
    ///
    /// The map has fewer than [`MAX_ENTRIES`](prefix_table::MAX_ENTRIES). The only error is a refusal of memory; the map
    /// is then as it was.
    pub fn aggregate_fill<F: Fn() -> T>(&mut self, default: F) -> Result<(), AllocError>
        requires callable { F.IsAlwaysCallable default }
        requires room { map.len self.old.entries < 2 ^ 62 }
        requires order { CmpEqualImpliesEq T.cmp }
        requires clones { (x y : T) → T.is_clone x y → y ≡ x }
        ensures filled { OnOk result ((value : T) × F.post default value × (self.new.entries ≡ fill_table T.cmp P.R.WIDTH self.old.entries value)) }
        ensures kept { OnOk result (self.new.kept ≡ position_set self.new.entries) }
        ensures unchanged { OnErr result (self.new ≡ self.old) }
    {
        let value = default();
        self.fill(&value)
    }

    /// The same with the default value of the type.
    pub fn aggregate_fill_default(&mut self) -> Result<(), AllocError>
    where
        T: Default,
        requires room { map.len self.old.entries < 2 ^ 62 }
        requires order { CmpEqualImpliesEq T.cmp }
        requires clones { (x y : T) → T.is_clone x y → y ≡ x }
        ensures filled { OnOk result ((value : T) × T.is_default value × (self.new.entries ≡ fill_table T.cmp P.R.WIDTH self.old.entries value)) }
        ensures kept { OnOk result (self.new.kept ≡ position_set self.new.entries) }
        ensures unchanged { OnErr result (self.new ≡ self.old) }
    {
        let value = T::default();
        self.fill(&value)
    }
}

impl<P: PrefixBits, T: Clone + Eq> PrefixMap<P, T> {
    /// The map keeps the entries whose nearest entry above has another value, or is absent.
    ///
    /// The only error is a refusal of memory; the map is then as it was.
    pub fn aggregate_consistent(&mut self) -> Result<(), AllocError>
        requires { (x y : T) → T.is_clone x y → y ≡ x }
        ensures consistent { OnOk result (self.new.entries ≡ consistent_table T.eq self.old.entries) }
        ensures kept { OnOk result (self.new.kept ≡ position_set self.new.entries) }
        ensures unchanged { OnErr result (self.new ≡ self.old) }
    {
        let consistent = aggregate_consistent_map::<P::R, T>(self.table.allocator(), &self.table)?;
        self.hold(consistent);
        Ok(())
    }
}

impl<P: PrefixBits> PrefixMap<P, ()> {
    ghost use Rattle.prefix_model.specs.Aggregates.{IsSetAggregate, consistent_set};

    /// The keys become those all of whose addresses are covered, and whose parent, if there is one, is not wholly
    /// covered.
    pub(crate) fn aggregate_members(&mut self) -> Result<(), AllocError>
        ensures members { OnOk result (IsSetAggregate P.R.WIDTH self.old.entries self.new.entries) }
        ensures kept { OnOk result (self.new.kept ≡ position_set self.new.entries) }
        ensures unchanged { OnErr result (self.new ≡ self.old) }
    {
        let members = aggregate_set::<P::R>(self.table.allocator(), &self.table)?;
        self.hold(members);
        Ok(())
    }

    /// The map keeps the keys that have no proper prefix among the keys.
    pub(crate) fn aggregate_consistent_members(&mut self) -> Result<(), AllocError>
        ensures consistent { OnOk result (self.new.entries ≡ consistent_set self.old.entries) }
        ensures kept { OnOk result (self.new.kept ≡ position_set self.new.entries) }
        ensures unchanged { OnErr result (self.new ≡ self.old) }
    {
        let members = aggregate_consistent_set::<P::R>(self.table.allocator(), &self.table)?;
        self.hold(members);
        Ok(())
    }
}
