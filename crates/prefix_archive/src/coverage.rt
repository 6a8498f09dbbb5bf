//! Coverage of an archived map: which addresses have an answer.
ghost use Rattle.std.specs.Prelude.{◌↔◌, ◌≤◌, ◌++◌, ◌∷◌, [], IsTrue};
ghost use Rattle.prefix_model.specs.Keys.{KeyBits};
ghost use Rattle.prefix_model.specs.Tables.{KeyMap, answer};
ghost use Rattle.prefix_model.specs.Coverage.{AllAnswered, IsCovered};
ghost use Rattle.prefix_model.specs.Counts.{Counts};
ghost use Rattle.prefix_archive.specs.Coverage.{IsViewOf, answers_from};

use crate::counting::count_addresses;
use crate::map::ArchivedPrefixMap;
use crate::view::ArchivedTrieRef;
use num_traits::cast;
use prefix_layout::ValueCodec;
use prefix_table::{Bits, Prefix, PrefixBits};
use prefix_view::view::TrieView;

/// The view at the place with this bit added; `None` only where nothing is stored there or below.
fn half<V: TrieView>(view: V, bit: bool) -> Option<V>
    ensures { IsViewOf V.seen (V.seen view).entries result ((V.seen view).place ++ bit ∷ []) }
{
    if bit { view.right() } else { view.left() }
}

/// Whether each address of a place has an answer, where the place has this many bits to go and nothing is stored above.
fn covers<V: TrieView>(view: Option<V>, left: u32) -> bool
    ensures { (m : KeyMap V.Value) (s : KeyBits) → IsViewOf V.seen m view s → IsTrue result ↔ AllAnswered left (answers_from m s) }
{
    let Some(view) = view else {
        return false;
    };
    if view.value().is_some() {
        return true;
    }
    if left == 0 {
        return false;
    }
    let low = covers(half(view, false), left - 1);
    if !low {
        return false;
    }
    covers(half(view, true), left - 1)
}

impl<'a, P: PrefixBits, T: ValueCodec> ArchivedPrefixMap<'a, P, T> {
    /// Whether every address that begins with the prefix's key has an answer.
    pub fn is_covered_in_aggregate(&self, prefix: &P) -> bool
        requires { P.prefix_len prefix.now ≤ P.R.WIDTH }
        ensures { IsTrue result ↔ IsCovered P.R.WIDTH self.now.table.entries (P.key prefix.now) }
    {
        if self.is_covered(prefix) {
            return true;
        }
        let left = P::R::WIDTH - u32::from(prefix.prefix_len());
        covers(ArchivedTrieRef::new_root(self).find(prefix), left)
    }
}

impl<'a, P: Prefix, T: ValueCodec> ArchivedPrefixMap<'a, P, T> {
    /// How many addresses have an answer; `None` where all have one.
    pub fn address_count(&self) -> Option<P::R>
        ensures { Counts P.R.value P.R.WIDTH (answer self.now.table.entries) result }
    {
        if covers(Some(ArchivedTrieRef::new_root(self)), P::R::WIDTH) {
            return None;
        }
        cast(count_addresses(self))
    }
}
