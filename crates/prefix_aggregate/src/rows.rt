// Worked examples of change sets, which the definitions compute to.
ghost use Rattle.std.specs.Prelude.{◌≡◌, [], ◌∷◌, Some, None};
ghost use Rattle.prefix_model.specs.Positions.{position_set};
ghost use Rattle.prefix_model.specs.Rows.{key, table};
ghost use Rattle.prefix_aggregate.specs.ChangeSets.{node_positions};
ghost use Rattle.prefix_aggregate.specs.ChangeRows.{HasChanges};

/// Four quarters with three values: each place of up to two bits has candidates of its own.
pub fn four_quarters()
    ensures { HasChanges 32 ([] ∷ []) ((key 2 0, 1) ∷ (key 2 1, 2) ∷ (key 2 2, 2) ∷ (key 2 3, 3) ∷ [])
        (0x7f ∷ []) (Some (2 ∷ []) ∷ Some (1 ∷ 2 ∷ []) ∷ Some (2 ∷ 3 ∷ []) ∷ Some (1 ∷ []) ∷ Some (2 ∷ []) ∷ Some (2 ∷ []) ∷ Some (3 ∷ []) ∷ []) }
{}

/// Entries in two nodes, beside a hole.
pub fn across_nodes()
    ensures { HasChanges 32 ([] ∷ key 5 0 ∷ []) ((key 4 0, 1) ∷ (key 5 0, 2) ∷ (key 4 1, 2) ∷ [])
        (0x8081 ∷ 0x1 ∷ []) (None ∷ Some (2 ∷ []) ∷ Some (1 ∷ 2 ∷ []) ∷ Some (2 ∷ []) ∷ []) }
{}
