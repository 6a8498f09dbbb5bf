// Laws of the aggregations beside the least table.
ghost use Rattle.std.proofs.lemmas.Map.Lookups.{CmpEqualImpliesEq};
ghost use Rattle.prefix_model.specs.Aggregates.{unit_cmp};
ghost use Rattle.prefix_model.specs.AggregateLaws.{FillsEach, ConsistentKeepsAnswers, ConsistentIsStable, SetIsStable};
ghost use Rattle.prefix_model.specs.AggregateLaws.{LeastIsSetAggregate, SetAggregateCovers, SetAggregateIsStable, TellsEqual};
ghost use Rattle.prefix_model.specs.AggregateLaws.{LeastHasPrefixes};

/// A fill answers everywhere, with the fewest entries, at most one more than the table has, and one at the empty key.
pub fn fill_is_fewest<V: Ord>()
    requires { CmpEqualImpliesEq V.cmp }
    ensures { FillsEach V.cmp }
{}

/// The consistent table answers at every key as the table does, and is its own consistent table.
pub fn consistent_keeps_answers<V: Eq>()
    requires { TellsEqual V.eq }
    ensures answers { ConsistentKeepsAnswers V.eq }
    ensures stable { ConsistentIsStable V.eq }
{}

/// The consistent set of a consistent set is itself.
pub fn consistent_set_is_stable<V>()
    ensures { SetIsStable V }
{}

/// The set aggregate of a set is its least table with the one value, covers the same addresses, and is its own aggregate.
pub fn least_is_set_aggregate()
    ensures least { LeastIsSetAggregate unit_cmp }
    ensures covers { SetAggregateCovers }
    ensures stable { SetAggregateIsStable }
{}

/// Every address below a key has an answer exactly where some key of the least table is a prefix of the key.
pub fn least_has_prefixes<V: Ord>()
    requires { CmpEqualImpliesEq V.cmp }
    ensures { LeastHasPrefixes V.cmp }
{}
