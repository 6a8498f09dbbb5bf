// Laws of answers and of the least table.
ghost use Rattle.std.proofs.lemmas.Map.Lookups.{CmpEqualImpliesEq};
ghost use Rattle.prefix_model.specs.LeastLaws.{AnswersLongestMatch, KeepsAnswers, HasFewest, IsCanonical, KeepsWidth};
ghost use Rattle.prefix_model.specs.LeastLaws.{IsNoLarger, IsStable, KnowsEachKey, TellsCoverage};
ghost use Rattle.prefix_model.specs.LeastLaws.{IsAscending, ListsPlaced, ServesBelowEach};

/// What a table answers at a key is the value at the longest stored prefix of the key.
pub fn answer_is_longest_match<V>()
    ensures { AnswersLongestMatch V }
{}

/// The least table answers as the table does, at every address.
pub fn least_keeps_answers<V: Ord>()
    requires { CmpEqualImpliesEq V.cmp }
    ensures { KeepsAnswers V.cmp }
{}

/// No table with the same answers has fewer entries.
pub fn least_is_fewest<V: Ord>()
    requires { CmpEqualImpliesEq V.cmp }
    ensures { HasFewest V.cmp }
{}

/// Tables with the same answers have one least table.
pub fn least_is_canonical<V: Ord>()
    requires { CmpEqualImpliesEq V.cmp }
    ensures { IsCanonical V.cmp }
{}

/// No key of the least table is longer than an address.
pub fn least_keeps_width<V: Ord>()
    requires { CmpEqualImpliesEq V.cmp }
    ensures { KeepsWidth V.cmp }
{}

/// The least table has no more entries than the table.
pub fn least_is_no_larger<V: Ord>()
    requires { CmpEqualImpliesEq V.cmp }
    ensures { IsNoLarger V.cmp }
{}

/// The least table of a least table is itself.
pub fn least_is_stable<V: Ord>()
    requires { CmpEqualImpliesEq V.cmp }
    ensures { IsStable V.cmp }
{}

/// What the least table stores and answers at each key, by recursion on bits.
pub fn least_is_known_at_each_key<V: Ord>()
    requires { CmpEqualImpliesEq V.cmp }
    ensures { KnowsEachKey V.cmp }
{}

/// The least table answers at a key just where each address that begins with the key has an answer.
pub fn least_tells_coverage<V: Ord>()
    requires { CmpEqualImpliesEq V.cmp }
    ensures { TellsCoverage V.cmp }
{}

/// Candidates are in ascending order.
pub fn candidates_ascend<V: Ord>()
    requires { CmpEqualImpliesEq V.cmp }
    ensures { IsAscending V.cmp }
{}

/// The entries of the least table are those that were placed, in key order.
pub fn least_lists_placed<V: Ord>()
    requires { CmpEqualImpliesEq V.cmp }
    ensures { ListsPlaced V.cmp }
{}

/// The step by which the least table has the fewest entries.
pub fn placed_serves_with_fewest<V: Ord>()
    requires { CmpEqualImpliesEq V.cmp }
    ensures { ServesBelowEach V.cmp }
{}
