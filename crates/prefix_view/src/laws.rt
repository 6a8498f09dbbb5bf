//! Laws of walks, and of the equality of views.
ghost use Rattle.prefix_view.specs.Laws.{WalksAscend, GoesOnBehind, SameKeysIsReflexive, SameKeysIsSymmetric, SameKeysIsTransitive};

/// In a walk the keys strictly rise.
pub fn walks_ascend<V>()
    ensures { WalksAscend V }
{}

/// A walk from the last key seen, itself left out, is the rest of the walk.
pub fn walks_go_on_behind<V>()
    ensures { GoesOnBehind V }
{}

/// A view has the keys that it has.
pub fn same_keys_is_reflexive<V>()
    ensures { SameKeysIsReflexive V }
{}

/// Where one view has the keys of another, the other has those of the one. Their values may be of two types.
pub fn same_keys_is_symmetric<V, W>()
    ensures { SameKeysIsSymmetric V W }
{}

/// Two views that have the keys of a third have the same keys.
pub fn same_keys_is_transitive<V, W, X>()
    ensures { SameKeysIsTransitive V W X }
{}
