// The lists of a node that are kept.
ghost use Rattle.std.specs.Prelude.{◌≡◌, ◌+◌, ◌<◌, ◌≤◌, ◌++◌, ◌∷◌, ◌^◌, [], cond, map, length, IfOk, OnOk};
ghost use Rattle.std.specs.List.{filter};
ghost use Rattle.prefix_aggregate.specs.Parts.{told};
ghost use Rattle.prefix_aggregate.specs.Nodes.{list_at, differs, kept_mask, kept_of, IsWithin};
ghost use Rattle.prefix_aggregate.specs.Stacks.{kept_lists, IsStacked};

use crate::bits::parent_coverage;
use crate::parts::{Part, same};
use crate::sets::{Stacks, add_list, add_mask};
use std::alloc::AllocError;

/// Whether the list of a place is the first, or differs from that of the place above.
#[inline(always)]
fn differs<T: Ord>(values: &[&T], lists: &[Part; 31], place: u32) -> bool
    requires within { IsWithin values.now lists.now }
    requires place { place < 31 }
    ensures { result ≡ differs T.cmp values.now lists.now place }
{
    place == 0
        || !same(
            values,
            lists[place as usize],
            lists[((place - 1) / 2) as usize],
        )
}

/// Keeps the list of a part.
pub fn add_part<T: Clone>(
    values: &[&T],
    stacks: &mut Stacks<T>,
    part: Part,
) -> Result<(), AllocError>
    requires within { part.start + part.len ≤ length values.now }
    requires clones { (x y : T) → T.is_clone x y → y ≡ x }
    requires stacked { IsStacked stacks.old }
    ensures stacked { OnOk result (IsStacked stacks.new) }
    ensures masks { OnOk result (stacks.new.masks.items ≡ stacks.old.masks.items) }
    ensures lists { OnOk result (kept_lists stacks.new ≡ told values.now part ∷ kept_lists stacks.old) }
{
    add_list(stacks, &values[part.start..part.start + part.len])
}

/// Keeps the list of a place, if it is kept, and tells its bit.
#[inline(always)]
fn keep_place<T: Clone + Ord>(
    values: &[&T],
    stacks: &mut Stacks<T>,
    lists: &[Part; 31],
    place: u32,
) -> Result<u32, AllocError>
    requires within { IsWithin values.now lists.now }
    requires place { place < 31 }
    requires clones { (x y : T) → T.is_clone x y → y ≡ x }
    requires stacked { IsStacked stacks.old }
    ensures stacked { OnOk result (IsStacked stacks.new) }
    ensures masks { OnOk result (stacks.new.masks.items ≡ stacks.old.masks.items) }
    ensures bit { IfOk result (λ bit. bit ≡ cond (differs T.cmp values.now lists.now place) (2 ^ place) 0) }
    ensures lists { OnOk result (kept_lists stacks.new
        ≡ map (list_at values.now lists.now) (filter (differs T.cmp values.now lists.now) (place ∷ []))
        ++ kept_lists stacks.old) }
{
    if differs(values, lists, place) {
        add_part(values, stacks, lists[place as usize])?;
        Ok(1 << place)
    } else {
        Ok(0)
    }
}

/// Keeps the lists of a node that differ from those one bit above, from the last to the first, and its mask.
pub fn keep_lists<T: Clone + Ord>(
    values: &[&T],
    stacks: &mut Stacks<T>,
    lists: &[Part; 31],
    inner: u32,
) -> Result<(), AllocError>
    requires within { IsWithin values.now lists.now }
    requires clones { (x y : T) → T.is_clone x y → y ≡ x }
    requires stacked { IsStacked stacks.old }
    ensures stacked { OnOk result (IsStacked stacks.new) }
    ensures masks { OnOk result (stacks.new.masks.items ≡ stacks.old.masks.items
        ++ kept_mask T.cmp values.now lists.now inner ∷ []) }
    ensures lists { OnOk result (kept_lists stacks.new
        ≡ kept_of T.cmp values.now lists.now inner ++ kept_lists stacks.old) }
{
    let coverage = parent_coverage(inner);
    let mut mask = 0;
    let mut rest = coverage | 1;
    while rest != 0 {
        let place = 31 - rest.leading_zeros();
        rest &= !(1 << place);
        let bit = keep_place(values, stacks, lists, place)?;
        mask += bit;
    }
    add_mask(stacks, mask)
}
