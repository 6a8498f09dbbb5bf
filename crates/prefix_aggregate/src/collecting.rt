// The first walk, from the last child to the first: the candidates of each place, from the addresses up.
ghost use Rattle.std.specs.Prelude.{◌≡◌, ◌+◌, ◌-◌, ◌<◌, ◌≤◌, ◌++◌, length, reverse, IsSome, IfOk, OnOk};
ghost use Rattle.std.specs.FinMap as map;
ghost use Rattle.std.specs.Int.{bit_at};
ghost use Rattle.std.specs.Option.{option_or};
ghost use Rattle.prefix_model.specs.Keys.{low_bits};
ghost use Rattle.prefix_model.specs.Tables.{HasWidth};
ghost use Rattle.prefix_model.specs.Positions.{data_bits, child_bits};
ghost use Rattle.prefix_model.specs.TableViews.{HoldsPositions, position_at};
ghost use Rattle.prefix_aggregate.specs.Parts.{told, IsPart, KeepsParts};
ghost use Rattle.prefix_aggregate.specs.Stacks.{kept_lists, IsStacked};
ghost use Rattle.prefix_aggregate.specs.Trees.{given, IsGiven};
ghost use Rattle.prefix_aggregate.specs.Reading.{place_key, node_masks, node_lists, masks_below, lists_below};
ghost use Rattle.prefix_aggregate.specs.Collecting.{AreParts, IsSource, IsCollected, key_candidates};

use crate::heap::inner_places;
use crate::keeping::{add_part, keep_lists};
use crate::parts::{Part, Work, add_value, cut, joined};
use crate::sets::{Stacks, add_mask};
use prefix_table::{Bits, NodeAt, NodeBits, Table};
use std::alloc::AllocError;

/// The bits of a node, but for children whose keys are longer than an address.
pub fn bits_within<R: Bits, T>(table: &Table<T>, at: NodeAt, depth: u32) -> NodeBits
    requires named { IsSome (map.get table.now.places at) }
    requires within { depth ≤ R.WIDTH }
    ensures data { result.data_bits ≡ data_bits (map.get table.now.entries) (position_at table.now at) }
    ensures children { depth + 5 ≤ R.WIDTH
        → result.child_bits ≡ child_bits (map.contains_key table.now.kept) (position_at table.now at) }
    ensures no_children { R.WIDTH < depth + 5 → result.child_bits ≡ 0 }
{
    let bits = table.node(at);
    if depth + 5 > R::WIDTH {
        return NodeBits {
            data_bits: bits.data_bits,
            child_bits: 0,
        };
    }
    bits
}

/// A node of the table that is read: its bits, and the places that have something below.
#[derive(Drop)]
struct Source {
    at: NodeAt,
    depth: u32,
    bits: NodeBits,
    inner: u32,
}

/// The node that stands there, at this depth.
fn source_of<R: Bits, T>(table: &Table<T>, at: NodeAt, depth: u32) -> Source
    requires named { IsSome (map.get table.now.places at) }
    requires depth { depth ≡ length (position_at table.now at) }
    requires within { depth ≤ R.WIDTH }
    ensures node { result.at ≡ at }
    ensures source { IsSource R.WIDTH table.now (position_at table.now result.at) result }
{
    let bits = bits_within::<R, T>(table, at, depth);
    let inner = inner_places(bits.data_bits, bits.child_bits);
    Source {
        at,
        depth,
        bits,
        inner,
    }
}

/// The part of the answer at a place, by that of the place above.
#[inline(always)]
fn answer_of<'a, T>(
    table: &'a Table<T>,
    work: &mut Work<'a, T>,
    at: NodeAt,
    bits: u32,
    place: u32,
    above: Part,
) -> Result<Part, AllocError>
    requires named { IsSome (map.get table.now.places at) }
    requires bits { bits ≡ data_bits (map.get table.now.entries) (position_at table.now at) }
    requires place { place < 31 }
    requires above { IsGiven work.old.values.items above }
    ensures kept { OnOk result (KeepsParts work.old.values.items work.new.values.items) }
    ensures part { IfOk result (IsGiven work.new.values.items) }
    ensures value { IfOk result (λ part. given work.new.values.items part ≡ option_or
        (map.get table.now.entries (position_at table.now at ++ place_key place)) (given work.old.values.items above)) }
{
    if (bits >> place) & 1 == 1 {
        add_value(work, table.value(at, place))
    } else {
        Ok(above)
    }
}

/// The candidates of a place that has nothing below.
#[inline(always)]
fn collect_leaf<'a, R: Bits, T: Ord>(
    table: &'a Table<T>,
    work: &mut Work<'a, T>,
    lists: &mut [Part; 31],
    node: &Source,
    place: u32,
    above: Part,
) -> Result<Part, AllocError>
    requires holds { HoldsPositions table.now }
    requires width { HasWidth R.WIDTH table.now.entries }
    requires named { IsSome (map.get table.now.places node.now.at) }
    requires source { IsSource R.WIDTH table.now (position_at table.now node.now.at) node.now }
    requires place { place < 31 }
    requires leaf { bit_at node.now.inner place ≡ 0 }
    requires above { IsGiven work.old.values.items above }
    requires parts { AreParts T.cmp work.old.values.items lists.old }
    ensures { IfOk result (IsCollected T.cmp R.WIDTH table.now (position_at table.now node.now.at) node.now.inner place
        (given work.old.values.items above) work.old.values.items work.new.values.items lists.old lists.new) }
{
    let answer = answer_of(table, work, node.at, node.bits.data_bits, place, above)?;
    lists[place as usize] = answer;
    Ok(answer)
}

/// Keeps the masks and lists of the nodes below a place of a node, or a slot, whose number is 31 more, and tells the
/// candidates of the places from there on.
#[cycle(collect)]
#[inline(always)]
fn collect_at<'a, R: Bits, T: Clone + Ord>(
    table: &'a Table<T>,
    work: &mut Work<'a, T>,
    stacks: &mut Stacks<T>,
    lists: &mut [Part; 31],
    node: &Source,
    place: u32,
    above: Part,
) -> Result<Part, AllocError>
    requires clones { (x y : T) → T.is_clone x y → y ≡ x }
    requires holds { HoldsPositions table.now }
    requires width { HasWidth R.WIDTH table.now.entries }
    requires named { IsSome (map.get table.now.places node.now.at) }
    requires source { IsSource R.WIDTH table.now (position_at table.now node.now.at) node.now }
    requires place { place < 63 }
    requires within { node.now.depth + length (place_key place) ≤ R.WIDTH }
    requires above { IsGiven work.old.values.items above }
    requires parts { AreParts T.cmp work.old.values.items lists.old }
    requires stacked { IsStacked stacks.old }
    ensures collected { IfOk result (IsCollected T.cmp R.WIDTH table.now (position_at table.now node.now.at) node.now.inner
        place (given work.old.values.items above) work.old.values.items work.new.values.items lists.old lists.new) }
    ensures stacked { OnOk result (IsStacked stacks.new) }
    ensures masks { OnOk result (stacks.new.masks.items ≡ stacks.old.masks.items ++ reverse
        (masks_below T.cmp R.WIDTH table.now (5 - length (place_key place))
        (position_at table.now node.now.at ++ place_key place) (given work.old.values.items above))) }
    ensures lists { OnOk result (kept_lists stacks.new ≡ lists_below T.cmp R.WIDTH table.now (5 - length (place_key place))
        (position_at table.now node.now.at ++ place_key place) (given work.old.values.items above) ++ kept_lists stacks.old) }
{
    if place >= 31 {
        return collect_slot::<R, T>(table, work, stacks, node, place - 31, above);
    }
    if (node.inner >> place) & 1 == 0 {
        return collect_leaf::<R, T>(table, work, lists, node, place, above);
    }
    collect_inner::<R, T>(table, work, stacks, lists, node, place, above)
}

/// The same at a place that has something below.
#[cycle(collect)]
fn collect_inner<'a, R: Bits, T: Clone + Ord>(
    table: &'a Table<T>,
    work: &mut Work<'a, T>,
    stacks: &mut Stacks<T>,
    lists: &mut [Part; 31],
    node: &Source,
    place: u32,
    above: Part,
) -> Result<Part, AllocError>
    requires clones { (x y : T) → T.is_clone x y → y ≡ x }
    requires holds { HoldsPositions table.now }
    requires width { HasWidth R.WIDTH table.now.entries }
    requires named { IsSome (map.get table.now.places node.now.at) }
    requires source { IsSource R.WIDTH table.now (position_at table.now node.now.at) node.now }
    requires place { place < 31 }
    requires inner { bit_at node.now.inner place ≡ 1 }
    requires above { IsGiven work.old.values.items above }
    requires parts { AreParts T.cmp work.old.values.items lists.old }
    requires stacked { IsStacked stacks.old }
    ensures collected { IfOk result (IsCollected T.cmp R.WIDTH table.now (position_at table.now node.now.at) node.now.inner
        place (given work.old.values.items above) work.old.values.items work.new.values.items lists.old lists.new) }
    ensures stacked { OnOk result (IsStacked stacks.new) }
    ensures masks { OnOk result (stacks.new.masks.items ≡ stacks.old.masks.items ++ reverse
        (masks_below T.cmp R.WIDTH table.now (5 - length (place_key place))
        (position_at table.now node.now.at ++ place_key place) (given work.old.values.items above))) }
    ensures lists { OnOk result (kept_lists stacks.new ≡ lists_below T.cmp R.WIDTH table.now (5 - length (place_key place))
        (position_at table.now node.now.at ++ place_key place) (given work.old.values.items above) ++ kept_lists stacks.old) }
{
    let answer = answer_of(table, work, node.at, node.bits.data_bits, place, above)?;
    let half = 2 * place + 1;
    let high = collect_at::<R, T>(table, work, stacks, lists, node, half + 1, answer)?;
    let low = collect_at::<R, T>(table, work, stacks, lists, node, half, answer)?;
    let part = joined(work, low, high)?;
    lists[place as usize] = part;
    Ok(part)
}

/// Keeps the masks and lists of the nodes at and below a slot, and tells its candidates.
#[cycle(collect)]
fn collect_slot<'a, R: Bits, T: Clone + Ord>(
    table: &'a Table<T>,
    work: &mut Work<'a, T>,
    stacks: &mut Stacks<T>,
    node: &Source,
    slot: u32,
    above: Part,
) -> Result<Part, AllocError>
    requires clones { (x y : T) → T.is_clone x y → y ≡ x }
    requires holds { HoldsPositions table.now }
    requires width { HasWidth R.WIDTH table.now.entries }
    requires named { IsSome (map.get table.now.places node.now.at) }
    requires depth { node.now.depth ≡ length (position_at table.now node.now.at) }
    requires slot { slot < 32 }
    requires within { node.now.depth + 5 ≤ R.WIDTH }
    requires above { IsGiven work.old.values.items above }
    requires stacked { IsStacked stacks.old }
    ensures kept { OnOk result (KeepsParts work.old.values.items work.new.values.items) }
    ensures part { IfOk result (IsPart T.cmp work.new.values.items) }
    ensures candidates { IfOk result (λ part. told work.new.values.items part ≡ key_candidates T.cmp R.WIDTH table.now
        (position_at table.now node.now.at ++ low_bits 5 slot) (given work.old.values.items above)) }
    ensures stacked { OnOk result (IsStacked stacks.new) }
    ensures masks { OnOk result (stacks.new.masks.items ≡ stacks.old.masks.items ++ reverse
        (masks_below T.cmp R.WIDTH table.now 0
        (position_at table.now node.now.at ++ low_bits 5 slot) (given work.old.values.items above))) }
    ensures lists { OnOk result (kept_lists stacks.new ≡ lists_below T.cmp R.WIDTH table.now 0
        (position_at table.now node.now.at ++ low_bits 5 slot) (given work.old.values.items above) ++ kept_lists stacks.old) }
{
    match table.child(node.at, slot) {
        Some(child) => collect::<R, T>(table, work, stacks, child, node.depth + 5, above),
        None => Ok(above),
    }
}

/// Keeps the masks and lists of the node and of those below it, and tells the candidates of the node.
#[cycle(collect)]
pub fn collect<'a, R: Bits, T: Clone + Ord>(
    table: &'a Table<T>,
    work: &mut Work<'a, T>,
    stacks: &mut Stacks<T>,
    at: NodeAt,
    depth: u32,
    inherited: Part,
) -> Result<Part, AllocError>
    requires clones { (x y : T) → T.is_clone x y → y ≡ x }
    requires holds { HoldsPositions table.now }
    requires width { HasWidth R.WIDTH table.now.entries }
    requires named { IsSome (map.get table.now.places at) }
    requires depth { depth ≡ length (position_at table.now at) }
    requires within { depth ≤ R.WIDTH }
    requires inherited { IsGiven work.old.values.items inherited }
    requires stacked { IsStacked stacks.old }
    ensures kept { OnOk result (KeepsParts work.old.values.items work.new.values.items) }
    ensures part { IfOk result (IsPart T.cmp work.new.values.items) }
    ensures candidates { IfOk result (λ part. told work.new.values.items part ≡ key_candidates T.cmp R.WIDTH table.now
        (position_at table.now at) (given work.old.values.items inherited)) }
    ensures stacked { OnOk result (IsStacked stacks.new) }
    ensures masks { OnOk result (stacks.new.masks.items ≡ stacks.old.masks.items ++ reverse
        (node_masks T.cmp R.WIDTH table.now (position_at table.now at) (given work.old.values.items inherited))) }
    ensures lists { OnOk result (kept_lists stacks.new ≡ node_lists T.cmp R.WIDTH table.now
        (position_at table.now at) (given work.old.values.items inherited) ++ kept_lists stacks.old) }
{
    let node = source_of::<R, T>(table, at, depth);
    if node.inner == 0 {
        return collect_alone::<R, T>(table, work, stacks, &node, inherited);
    }
    collect_whole::<R, T>(table, work, stacks, &node, inherited)
}

/// The same at a node that has nothing below its own key.
fn collect_alone<'a, R: Bits, T: Clone + Ord>(
    table: &'a Table<T>,
    work: &mut Work<'a, T>,
    stacks: &mut Stacks<T>,
    node: &Source,
    inherited: Part,
) -> Result<Part, AllocError>
    requires clones { (x y : T) → T.is_clone x y → y ≡ x }
    requires holds { HoldsPositions table.now }
    requires width { HasWidth R.WIDTH table.now.entries }
    requires named { IsSome (map.get table.now.places node.now.at) }
    requires source { IsSource R.WIDTH table.now (position_at table.now node.now.at) node.now }
    requires alone { node.now.inner ≡ 0 }
    requires inherited { IsGiven work.old.values.items inherited }
    requires stacked { IsStacked stacks.old }
    ensures kept { OnOk result (KeepsParts work.old.values.items work.new.values.items) }
    ensures part { IfOk result (IsPart T.cmp work.new.values.items) }
    ensures candidates { IfOk result (λ part. told work.new.values.items part ≡ key_candidates T.cmp R.WIDTH table.now
        (position_at table.now node.now.at) (given work.old.values.items inherited)) }
    ensures stacked { OnOk result (IsStacked stacks.new) }
    ensures masks { OnOk result (stacks.new.masks.items ≡ stacks.old.masks.items ++ reverse
        (node_masks T.cmp R.WIDTH table.now (position_at table.now node.now.at) (given work.old.values.items inherited))) }
    ensures lists { OnOk result (kept_lists stacks.new ≡ node_lists T.cmp R.WIDTH table.now
        (position_at table.now node.now.at) (given work.old.values.items inherited) ++ kept_lists stacks.old) }
{
    let answer = answer_of(table, work, node.at, node.bits.data_bits, 0, inherited)?;
    add_part(&work.values, stacks, answer)?;
    add_mask(stacks, 1)?;
    Ok(answer)
}

/// The same at a node that is read.
#[cycle(collect)]
fn collect_whole<'a, R: Bits, T: Clone + Ord>(
    table: &'a Table<T>,
    work: &mut Work<'a, T>,
    stacks: &mut Stacks<T>,
    node: &Source,
    inherited: Part,
) -> Result<Part, AllocError>
    requires clones { (x y : T) → T.is_clone x y → y ≡ x }
    requires holds { HoldsPositions table.now }
    requires width { HasWidth R.WIDTH table.now.entries }
    requires named { IsSome (map.get table.now.places node.now.at) }
    requires source { IsSource R.WIDTH table.now (position_at table.now node.now.at) node.now }
    requires inherited { IsGiven work.old.values.items inherited }
    requires stacked { IsStacked stacks.old }
    ensures kept { OnOk result (KeepsParts work.old.values.items work.new.values.items) }
    ensures part { IfOk result (IsPart T.cmp work.new.values.items) }
    ensures candidates { IfOk result (λ part. told work.new.values.items part ≡ key_candidates T.cmp R.WIDTH table.now
        (position_at table.now node.now.at) (given work.old.values.items inherited)) }
    ensures stacked { OnOk result (IsStacked stacks.new) }
    ensures masks { OnOk result (stacks.new.masks.items ≡ stacks.old.masks.items ++ reverse
        (node_masks T.cmp R.WIDTH table.now (position_at table.now node.now.at) (given work.old.values.items inherited))) }
    ensures lists { OnOk result (kept_lists stacks.new ≡ node_lists T.cmp R.WIDTH table.now
        (position_at table.now node.now.at) (given work.old.values.items inherited) ++ kept_lists stacks.old) }
{
    let start = work.values.len();
    let mut lists = [inherited; 31];
    let part = collect_at::<R, T>(table, work, stacks, &mut lists, node, 0, inherited)?;
    keep_lists(&work.values, stacks, &lists, node.inner)?;
    cut(work, start, part)
}
