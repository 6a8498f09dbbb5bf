//! What holds of the aggregations, whatever table they read.
//!
//! The contracts of the calls name the least table, the fill result and the consistent and set forms; these functions
//! say what these are worth. Each is called for its contract alone, and does nothing.
ghost use Rattle.std.proofs.lemmas.Map.Lookups.{CmpEqualImpliesEq};
ghost use Rattle.prefix_model.specs.Aggregates.{unit_cmp};
ghost use Rattle.prefix_model.specs.AggregateLaws.{FillsEach, ConsistentKeepsAnswers, ConsistentIsStable, SetIsStable};
ghost use Rattle.prefix_model.specs.AggregateLaws.{LeastIsSetAggregate, SetAggregateCovers, SetAggregateIsStable};
ghost use Rattle.prefix_model.specs.AggregateLaws.{LeastHasPrefixes, TellsEqual};
ghost use Rattle.prefix_model.specs.LeastLaws.{KeepsAnswers, HasFewest, IsCanonical, IsNoLarger, KeepsWidth, IsStable};

/// The least table answers at every address as the table does, and no table with these answers has fewer entries.
pub fn least_is_fewest<V: Ord>()
    requires { CmpEqualImpliesEq V.cmp }
    ensures answers { KeepsAnswers V.cmp }
    ensures fewest { HasFewest V.cmp }
{}

/// The least table has no more entries than the table, and none longer than an address.
pub fn least_is_no_larger<V: Ord>()
    requires { CmpEqualImpliesEq V.cmp }
    ensures count { IsNoLarger V.cmp }
    ensures width { KeepsWidth V.cmp }
{}

/// Tables with the same answers have one least table.
pub fn least_is_canonical<V: Ord>()
    requires { CmpEqualImpliesEq V.cmp }
    ensures { IsCanonical V.cmp }
{}

/// The least table of a least table is itself.
pub fn least_is_stable<V: Ord>()
    requires { CmpEqualImpliesEq V.cmp }
    ensures { IsStable V.cmp }
{}

/// Every address below a key has an answer exactly where some key of the least table is a prefix of the key.
pub fn least_has_prefixes<V: Ord>()
    requires { CmpEqualImpliesEq V.cmp }
    ensures { LeastHasPrefixes V.cmp }
{}

/// A fill has the answers of the table and the default elsewhere.
///
/// No table with these answers has fewer entries. It has at most one entry more than the table, one of them at length
/// zero, and is its own fill with the same default.
pub fn fill_is_fewest<V: Ord>()
    requires { CmpEqualImpliesEq V.cmp }
    ensures { FillsEach V.cmp }
{}

/// The consistent map answers as the map does at every key, not only at addresses.
pub fn consistent_map_keeps_answers<V: Eq>()
    requires { TellsEqual V.eq }
    ensures { ConsistentKeepsAnswers V.eq }
{}

/// The consistent map of a consistent map is itself.
pub fn consistent_map_is_stable<V: Eq>()
    requires { TellsEqual V.eq }
    ensures { ConsistentIsStable V.eq }
{}

/// The consistent set of a consistent set is itself.
pub fn consistent_set_is_stable<V>()
    ensures { SetIsStable V }
{}

/// The set aggregate has the keys of the least table with one value, and covers the same addresses as the set.
pub fn set_aggregate_is_least()
    ensures least { LeastIsSetAggregate unit_cmp }
    ensures covers { SetAggregateCovers }
{}

/// The aggregate of a set aggregate is itself.
pub fn set_aggregate_is_stable()
    ensures { SetAggregateIsStable }
{}
