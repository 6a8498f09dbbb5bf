//! What an iterator over a view gives at each step.
ghost use Rattle.std.specs.Prelude.{◌≡◌, IfSome, map, take};
ghost use Rattle.std.specs.Iterator.{YieldsFirstBy, item_count};
ghost use Rattle.prefix_model.specs.Keys.{padded};
ghost use Rattle.prefix_view.specs.Iteration.{left_from};

use crate::iter::{Rest, ViewIter, ViewKeys, ViewValues};
use crate::view::TrieView;

impl<V: TrieView> Rest for ViewIter<V> {
    ghost Value = { V.Value };

    ghost left = { λ it. left_from (V.seen it.view) (take it.len (V.P.R.bits it.key)) it.inclusive it.done };
}

impl<V: TrieView> Iterator for ViewIter<V> {
    type Item = (V::P, V::T);

    ghost next_gives = { λ s r t.
        YieldsFirstBy (λ x. (V.P.key x.0, V.value_of x.1)) ⟦<ViewIter<V> as Rest>⟧.left s r t
        × IfSome r (λ x. V.P.bits x.0 ≡ padded V.P.R.WIDTH (V.P.key x.0)) };

    ghost remaining = { item_count ⟦<ViewIter<V> as Rest>⟧.left };

    fn next(&mut self) -> Option<(V::P, V::T)> {
        match self.advance() {
            Some(at) => at.prefix_value(),
            None => None,
        }
    }
}

impl<V: TrieView> Rest for ViewKeys<V> {
    ghost Value = { V.Value };

    ghost left = { λ it. left_from (V.seen it.entries.view) (take it.entries.len (V.P.R.bits it.entries.key)) it.entries.inclusive it.entries.done };
}

impl<V: TrieView> Iterator for ViewKeys<V> {
    type Item = V::P;

    ghost next_gives = { λ s r t.
        YieldsFirstBy (λ x. V.P.key x)
        (λ it. map (λ e. e.0) (⟦<ViewKeys<V> as Rest>⟧.left it)) s r t
        × IfSome r (λ x. V.P.bits x ≡ padded V.P.R.WIDTH (V.P.key x)) };

    ghost remaining = { item_count ⟦<ViewKeys<V> as Rest>⟧.left };

    fn next(&mut self) -> Option<V::P> {
        match self.entries.advance() {
            Some(at) => Some(at.prefix()),
            None => None,
        }
    }
}

impl<V: TrieView> Rest for ViewValues<V> {
    ghost Value = { V.Value };

    ghost left = { λ it. left_from (V.seen it.entries.view) (take it.entries.len (V.P.R.bits it.entries.key)) it.entries.inclusive it.entries.done };
}

impl<V: TrieView> Iterator for ViewValues<V> {
    type Item = V::T;

    ghost next_gives = { YieldsFirstBy (λ x. V.value_of x) (λ it. map (λ e. e.1) (⟦<ViewValues<V> as Rest>⟧.left it)) };

    ghost remaining = { item_count ⟦<ViewValues<V> as Rest>⟧.left };

    fn next(&mut self) -> Option<V::T> {
        match self.entries.advance() {
            Some(at) => at.value(),
            None => None,
        }
    }
}
