// Change sets: what the first walk tells the second.
ghost use Rattle.std.specs.Prelude.{◌≡◌, ◌<◌, ◌++◌, ◌∷◌, [], length, Some, OnOk, reverse, slice_get};
ghost use Rattle.std.specs.Option.{option_copied};
ghost use Rattle.prefix_aggregate.specs.Lists.{behind};
ghost use Rattle.prefix_aggregate.specs.Parts.{as_candidates};
ghost use Rattle.prefix_aggregate.specs.Stacks.{pieces, start_at, AreEnds, kept_lists, IsStacked, stacked_lists};

use std::alloc::{AllocError, Global};
use std::marker::Model;

/// Masks and lists as the first walk adds them: the values of the lists, from the last list to the first, and where each list ends.
#[derive(Drop)]
pub(crate) struct Stacks<T> {
    masks: Vec<u32>,
    values: Vec<T>,
    ends: Vec<usize>,
}

/// The candidates of a table at the places where they change.
///
/// There is a mask for each kept position, in key order. Bit `b` of it is set where the candidates of place `b` differ
/// from those of the place above, and bit 0 always. For each bit that is set there is a list, by position and then by bit.
#[derive(Drop)]
pub struct ChangeSets<T> {
    stacks: Stacks<T>,
}

impl<T> Model for ChangeSets<T> {
    ghost use Rattle.prefix_aggregate.specs.ChangeSets.{ChangeLists, coded_lists};
    ghost use Rattle.prefix_aggregate.specs.Stacks.{IsStacked, stacked_lists};

    ghost Value = { ChangeLists T };

    ghost coded = { coded_lists T.code };

    ghost view = { λ s. stacked_lists s.stacks };

    ghost invariant = { λ s. IsStacked s.stacks };
}

impl<T> ChangeSets<T> {
    /// The mask of each kept position, in key order.
    pub fn masks(&self) -> &[u32]
        ensures { result.now ≡ self.now.masks }
    {
        &self.stacks.masks
    }

    /// How many lists there are.
    pub fn len(&self) -> usize
        ensures { result ≡ length self.now.lists }
    {
        self.stacks.ends.len()
    }

    /// The list of this number, below [`len`](Self::len), in ascending order; `None` for a hole.
    pub fn list(&self, i: usize) -> Option<&[T]>
        requires { i < length self.now.lists }
        ensures { slice_get self.now.lists i ≡ Some (option_copied result) }
    {
        let number = self.stacks.ends.len() - 1 - i;
        let list = piece(&self.stacks.values, &self.stacks.ends, number);
        if list.is_empty() { None } else { Some(list) }
    }

    /// The change sets of these stacks, whose masks stand in the other order.
    pub(crate) fn from_stacks(mut stacks: Stacks<T>) -> Self
        requires { IsStacked stacks }
        ensures masks { result.masks ≡ reverse stacks.masks.items }
        ensures lists { result.lists ≡ kept_lists stacks }
    {
        stacks.masks.reverse();
        ChangeSets { stacks }
    }
}

/// Where the list of this number starts.
fn start_of(ends: &[usize], number: usize) -> usize
    requires { number < length ends.now }
    ensures { result ≡ start_at 0 ends.now number }
{
    if number == 0 { 0 } else { ends[number - 1] }
}

/// The values of the list of this number.
fn piece<'a, T>(values: &'a [T], ends: &'a [usize], number: usize) -> &'a [T]
    requires number { number < length ends.now }
    requires ends { AreEnds 0 ends.now (length values.now) }
    ensures { slice_get (pieces 0 ends.now values.now) number ≡ Some result.now }
{
    let start = start_of(ends, number);
    let end = ends[number];
    &values[start..end]
}

/// No mask and no list.
pub(crate) fn no_stacks<T>(alloc: Global) -> Stacks<T>
    ensures stacked { IsStacked result }
    ensures masks { result.masks.items ≡ [] }
    ensures lists { kept_lists result ≡ [] }
{
    Stacks {
        masks: Vec::new(alloc),
        values: Vec::new(alloc),
        ends: Vec::new(alloc),
    }
}

/// Adds clones of the values.
fn add_clones<T: Clone>(values: &mut Vec<T>, list: &[&T]) -> Result<(), AllocError>
    requires { (x y : T) → T.is_clone x y → y ≡ x }
    ensures { OnOk result (values.new.items ≡ values.old.items ++ behind list.now) }
{
    for i in 0..list.len() {
        let value: &T = list[i];
        values.push(value.clone()?)?;
    }
    Ok(())
}

/// Adds a list before all others.
pub(crate) fn add_list<T: Clone>(stacks: &mut Stacks<T>, list: &[&T]) -> Result<(), AllocError>
    requires clones { (x y : T) → T.is_clone x y → y ≡ x }
    requires stacked { IsStacked stacks.old }
    ensures stacked { OnOk result (IsStacked stacks.new) }
    ensures masks { OnOk result (stacks.new.masks.items ≡ stacks.old.masks.items) }
    ensures lists { OnOk result (kept_lists stacks.new ≡ as_candidates (behind list.now) ∷ kept_lists stacks.old) }
{
    add_clones(&mut stacks.values, list)?;
    let end = stacks.values.len();
    stacks.ends.push(end)?;
    Ok(())
}

/// Adds a mask.
pub(crate) fn add_mask<T>(stacks: &mut Stacks<T>, mask: u32) -> Result<(), AllocError>
    requires stacked { IsStacked stacks.old }
    ensures stacked { OnOk result (IsStacked stacks.new) }
    ensures masks { OnOk result (stacks.new.masks.items ≡ stacks.old.masks.items ++ mask ∷ []) }
    ensures lists { OnOk result (kept_lists stacks.new ≡ kept_lists stacks.old) }
{
    stacks.masks.push(mask)?;
    Ok(())
}
