//! Views of archived maps.
ghost use Rattle.std.specs.Prelude.{◌≡◌, ◌^◌, ◌<◌, ◌≤◌, ⊤, []};
ghost use Rattle.prefix_model.specs.Keys.{low_bits};
ghost use Rattle.prefix_model.specs.Walks.{node_of};
ghost use Rattle.prefix_archive.specs.ArchivedViews.{seen_in};

use crate::cursor::ArchivedCursor;
use crate::map::ArchivedPrefixMap;
use crate::value::ArchivedValue;
use prefix_layout::ValueCodec;
use prefix_table::{Bits, PrefixBits, child_cover_mask, data_cover_mask};
use prefix_view::trie_ref::{key_of_number, longer_number};
use prefix_view::view::{AsView, TrieView};
use std::alloc::AllocError;

/// A view of an archived map. Its values are read in place.
pub struct ArchivedTrieRef<'a, P: PrefixBits, T: ValueCodec> {
    at: ArchivedCursor<'a, P, T>,
    // The number that the bits of the place spell.
    place: u128,
    prefix_len: u32,

    pub ghost stands: { low_bits at.depth at.path ≡ node_of (low_bits prefix_len place) },
    pub ghost small: { place < 2 ^ prefix_len },
    pub ghost within: { prefix_len ≤ P.R.WIDTH },
}

impl<'a, P: PrefixBits, T: ValueCodec> Clone for ArchivedTrieRef<'a, P, T> {
    ghost is_clone = { λ old new. new ≡ old };

    ghost is_infallible = { λ _. ⊤ };

    fn clone(&self) -> Result<ArchivedTrieRef<'a, P, T>, AllocError> {
        Ok(*self)
    }
}

impl<'a, P: PrefixBits, T: ValueCodec> Copy for ArchivedTrieRef<'a, P, T> {}

impl<'a, P: PrefixBits, T: ValueCodec> ArchivedTrieRef<'a, P, T> {
    /// The view of a whole map.
    pub fn new_root(map: &ArchivedPrefixMap<'a, P, T>) -> ArchivedTrieRef<'a, P, T>
        ensures map { result.at.map ≡ map.now }
        ensures place { result.place ≡ 0 }
        ensures length { result.prefix_len ≡ 0 }
    {
        ArchivedTrieRef {
            at: ArchivedCursor::root(map),
            place: 0,
            prefix_len: 0,
        }
    }

    /// The map that is seen.
    pub(crate) fn map(&self) -> ArchivedPrefixMap<'a, P, T>
        ensures { result ≡ self.now.at.map }
    {
        self.at.map()
    }
}

impl<'a, P: PrefixBits, T: ValueCodec> TrieView for ArchivedTrieRef<'a, P, T> {
    type P = P;

    type T = ArchivedValue<'a, T>;

    ghost Value = { T };

    ghost value_of = { λ v. v.spelling.value };

    ghost seen = { λ v. seen_in v.at.map.table.entries v.place v.prefix_len };

    fn depth(&self) -> u32 {
        self.at.depth()
    }

    fn prefix_len(&self) -> u32 {
        self.prefix_len
    }

    fn key(&self) -> P::R {
        key_of_number(self.place, self.prefix_len)
    }

    fn data_bitmap(&self) -> u32 {
        let mask = data_cover_mask(self.depth(), self.key(), self.prefix_len);
        self.at.data_bits() & mask
    }

    fn child_bitmap(&self) -> u32 {
        let mask = child_cover_mask(self.depth(), self.key(), self.prefix_len);
        self.at.child_bits() & mask
    }

    fn get_data(&self, data_bit: u32) -> ArchivedValue<'a, T> {
        self.at.value(data_bit)
    }

    fn get_child(&self, child_bit: u32) -> Self {
        let at = self.at.child(child_bit);
        ArchivedTrieRef {
            at,
            place: at.path(),
            prefix_len: at.depth(),
        }
    }

    fn reposition(&mut self, key: P::R, prefix_len: u32) {
        self.place = longer_number(self.place, key, self.prefix_len, prefix_len);
        self.prefix_len = prefix_len;
    }

    ghost use Rattle.prefix_archive.specs.ViewLaws.{archived_place};

    ghost place_law = { λ v. archived_place v.at.map.table.entries P.R.WIDTH v.at.depth v.at.path v.place v.prefix_len
        v.at.map.table.spelled.width v.at.kept v.stands v.within };
}

impl<'a, P: PrefixBits, T: ValueCodec> AsView for ArchivedTrieRef<'a, P, T> {
    type View = ArchivedTrieRef<'a, P, T>;

    ghost shows = { λ s v. seen_in v.at.map.table.entries v.place v.prefix_len ≡ seen_in s.at.map.table.entries s.place s.prefix_len };

    ghost use Rattle.std.proofs.Common.{◌∙◌, sym};

    ghost one_law = { λ s v w e f. e ∙ sym f };

    fn view(self) -> ArchivedTrieRef<'a, P, T> {
        self
    }
}

impl<'a, 'b, P: PrefixBits, T: ValueCodec> AsView for &'b ArchivedPrefixMap<'a, P, T> {
    type View = ArchivedTrieRef<'a, P, T>;

    ghost shows = { λ s v. seen_in v.at.map.table.entries v.place v.prefix_len ≡ seen_in s.now.table.entries 0 0 };

    ghost use Rattle.std.proofs.Common.{◌∙◌, sym};

    ghost one_law = { λ s v w e f. e ∙ sym f };

    fn view(self) -> ArchivedTrieRef<'a, P, T> {
        ArchivedTrieRef::new_root(self)
    }
}
