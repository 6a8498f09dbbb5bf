// Values in work, and parts of them: the lists of candidates of the first walk, before those that count are kept.
ghost use Rattle.std.specs.Prelude.{◌≡◌, ◌↔◌, ◌+◌, ◌<◌, ◌≤◌, [], ◌∷◌, ◌++◌, length, take, drop, IsTrue, IfOk, OnOk};
ghost use Rattle.std.specs.List.Sorted.{IsStrictlySortedBy};
ghost use Rattle.prefix_model.specs.Candidates.{intersection, union, both_or_either, joined};
ghost use Rattle.prefix_aggregate.specs.Lists.{behind};
ghost use Rattle.prefix_aggregate.specs.Same.{same_list, same_candidates};
ghost use Rattle.prefix_aggregate.specs.Parts.{values_of, told, IsPart, IsOneValue, KeepsParts};
ghost use Rattle.std.specs.Option.{option_copied};
ghost use Rattle.prefix_aggregate.specs.Trees.{given, IsGiven};

use std::alloc::{AllocError, Global};
use std::cmp::Ordering;

/// The values in work, and a list that a step needs for a time.
#[derive(Drop)]
pub struct Work<'a, T> {
    pub values: Vec<&'a T>,
    spare: Vec<&'a T>,
}

/// A part of the values in work: candidates in ascending order, or a hole where it is empty.
#[derive(Clone, Copy)]
pub struct Part {
    pub start: usize,
    pub len: usize,
}

/// From so many values in work on, those that a node no longer needs are let go.
const MANY: usize = 64;

/// The part of a hole.
pub const HOLE: Part = Part { start: 0, len: 0 };

/// No values in work.
pub fn no_work<'a, T>(alloc: Global) -> Work<'a, T>
    ensures { behind result.values.items ≡ [] }
{
    Work {
        values: Vec::new(alloc),
        spare: Vec::new(alloc),
    }
}

/// Whether two lists have the same values.
fn same_values<T: Ord>(left: &[&T], right: &[&T]) -> bool
    ensures { result ≡ same_list T.cmp (behind left.now) (behind right.now) }
{
    if left.len() != right.len() {
        return false;
    }
    for i in 0..left.len() {
        if left[i].cmp(right[i]).is_ne() {
            return false;
        }
    }
    true
}

/// Puts the values of both lists, each in ascending order, into the empty `both`.
fn intersection<'a, T: Ord>(
    both: &mut Vec<&'a T>,
    left: &[&'a T],
    right: &[&'a T],
) -> Result<(), AllocError>
    requires left { IsStrictlySortedBy T.cmp (behind left.now) }
    requires right { IsStrictlySortedBy T.cmp (behind right.now) }
    ensures { OnOk result (behind both.new.items ≡ intersection T.cmp (behind left.now) (behind right.now)) }
{
    both.clear();
    let mut i = 0;
    let mut j = 0;
    while i < left.len() && j < right.len() {
        match left[i].cmp(right[j]) {
            Ordering::Less => i += 1,
            Ordering::Greater => j += 1,
            Ordering::Equal => {
                both.push(left[i])?;
                i += 1;
                j += 1;
            }
        }
    }
    Ok(())
}

/// Puts the values of either list, each in ascending order, into the empty `all`.
fn union<'a, T: Ord>(
    all: &mut Vec<&'a T>,
    left: &[&'a T],
    right: &[&'a T],
) -> Result<(), AllocError>
    requires left { IsStrictlySortedBy T.cmp (behind left.now) }
    requires right { IsStrictlySortedBy T.cmp (behind right.now) }
    ensures { OnOk result (behind all.new.items ≡ union T.cmp (behind left.now) (behind right.now)) }
{
    all.clear();
    let mut i = 0;
    let mut j = 0;
    while i < left.len() && j < right.len() {
        match left[i].cmp(right[j]) {
            Ordering::Less => {
                all.push(left[i])?;
                i += 1;
            }
            Ordering::Greater => {
                all.push(right[j])?;
                j += 1;
            }
            Ordering::Equal => {
                all.push(right[j])?;
                i += 1;
                j += 1;
            }
        }
    }
    all.extend_from_slice(&left[i..])?;
    all.extend_from_slice(&right[j..])?;
    Ok(())
}

/// Whether two parts of one value have the same candidates.
#[inline(always)]
fn same_value<T: Ord>(values: &[&T], left: Part, right: Part) -> bool
    requires left { left.start + left.len ≤ length values.now }
    requires right { right.start + right.len ≤ length values.now }
    requires one_left { left.len ≡ 1 }
    requires one_right { right.len ≡ 1 }
    ensures { result ≡ same_candidates T.cmp (told values.now left) (told values.now right) }
{
    let first = values[left.start];
    let second = values[right.start];
    first.cmp(second).is_eq()
}

/// Whether two parts of as many values have the same candidates.
#[inline(always)]
fn same_long<T: Ord>(values: &[&T], left: Part, right: Part) -> bool
    requires left { left.start + left.len ≤ length values.now }
    requires right { right.start + right.len ≤ length values.now }
    requires long { left.len ≡ right.len }
    ensures { result ≡ same_candidates T.cmp (told values.now left) (told values.now right) }
{
    if left.start == right.start {
        return true;
    }
    if left.len == 1 {
        return same_value(values, left, right);
    }
    same_values(
        &values[left.start..left.start + left.len],
        &values[right.start..right.start + right.len],
    )
}

/// Whether two parts have the same candidates.
#[inline(always)]
pub fn same<T: Ord>(values: &[&T], left: Part, right: Part) -> bool
    requires left { left.start + left.len ≤ length values.now }
    requires right { right.start + right.len ≤ length values.now }
    ensures { result ≡ same_candidates T.cmp (told values.now left) (told values.now right) }
{
    if left.len != right.len {
        return false;
    }
    same_long(values, left, right)
}

/// Adds a value, and tells its part.
#[inline(always)]
pub fn add_value<'a, T>(work: &mut Work<'a, T>, value: &'a T) -> Result<Part, AllocError>
    ensures kept { OnOk result (KeepsParts work.old.values.items work.new.values.items) }
    ensures part { IfOk result (λ part. IsOneValue work.new.values.items part value.now) }
{
    let start = work.values.len();
    work.values.push(value)?;
    Ok(Part { start, len: 1 })
}

/// Adds the default, if there is one, and tells its part.
pub fn add_default<'a, T>(
    work: &mut Work<'a, T>,
    default: Option<&'a T>,
) -> Result<Part, AllocError>
    ensures part { IfOk result (IsGiven work.new.values.items) }
    ensures value { IfOk result (λ part. given work.new.values.items part ≡ option_copied default.entry) }
{
    match default {
        Some(value) => add_value(work, value),
        None => Ok(HOLE),
    }
}

/// Puts what both lists have into `out`, and where that is nothing, what either has. Answers whether that is all of the left list.
fn both_or_either<'a, T: Ord>(
    out: &mut Vec<&'a T>,
    left: &[&'a T],
    right: &[&'a T],
) -> Result<bool, AllocError>
    requires left { IsStrictlySortedBy T.cmp (behind left.now) }
    requires right { IsStrictlySortedBy T.cmp (behind right.now) }
    ensures values { OnOk result (behind out.new.items ≡ both_or_either T.cmp (behind left.now) (behind right.now)) }
    ensures whole { IfOk result (λ whole. IsTrue whole → behind out.new.items ≡ behind left.now) }
{
    intersection(out, left, right)?;
    if out.is_empty() {
        union(out, left, right)?;
        return Ok(false);
    }
    Ok(out.len() == left.len())
}

/// Adds what both halves have, and where that is nothing, what either has, and tells its part.
fn add_joined<'a, T: Ord>(
    work: &mut Work<'a, T>,
    left: Part,
    right: Part,
) -> Result<Part, AllocError>
    requires left { IsPart T.cmp work.old.values.items left }
    requires right { IsPart T.cmp work.old.values.items right }
    requires some_left { 0 < left.len }
    requires some_right { 0 < right.len }
    ensures kept { OnOk result (KeepsParts work.old.values.items work.new.values.items) }
    ensures part { IfOk result (IsPart T.cmp work.new.values.items) }
    ensures joined { IfOk result (λ part. told work.new.values.items part
        ≡ joined T.cmp (told work.old.values.items left) (told work.old.values.items right)) }
{
    let first = &work.values[left.start..left.start + left.len];
    let second = &work.values[right.start..right.start + right.len];
    if both_or_either(&mut work.spare, first, second)? {
        return Ok(left);
    }
    let start = work.values.len();
    work.values.extend_from_slice(&work.spare)?;
    Ok(Part {
        start,
        len: work.spare.len(),
    })
}

/// Adds two values, and tells their part.
fn add_two<'a, T>(work: &mut Work<'a, T>, low: &'a T, high: &'a T) -> Result<Part, AllocError>
    ensures kept { OnOk result (KeepsParts work.old.values.items work.new.values.items) }
    ensures within { IfOk result (λ part. part.start + part.len ≤ length work.new.values.items) }
    ensures values { IfOk result (λ part. values_of work.new.values.items part ≡ low.now ∷ high.now ∷ []) }
{
    let start = work.values.len();
    work.values.push(low)?;
    work.values.push(high)?;
    Ok(Part { start, len: 2 })
}

/// Adds two values in ascending order, or tells the left one where they tie, and tells their part.
fn join_values<'a, T: Ord>(
    work: &mut Work<'a, T>,
    left: Part,
    right: Part,
) -> Result<Part, AllocError>
    requires left { IsPart T.cmp work.old.values.items left }
    requires right { IsPart T.cmp work.old.values.items right }
    requires one_left { left.len ≡ 1 }
    requires one_right { right.len ≡ 1 }
    ensures kept { OnOk result (KeepsParts work.old.values.items work.new.values.items) }
    ensures part { IfOk result (IsPart T.cmp work.new.values.items) }
    ensures joined { IfOk result (λ part. told work.new.values.items part
        ≡ joined T.cmp (told work.old.values.items left) (told work.old.values.items right)) }
{
    let first = work.values[left.start];
    let second = work.values[right.start];
    let order = first.cmp(second);
    if order.is_eq() {
        return Ok(left);
    }
    if order.is_lt() {
        return add_two(work, first, second);
    }
    add_two(work, second, first)
}

/// The part of the candidates of a place, by those of its halves.
#[inline(always)]
pub fn joined<'a, T: Ord>(
    work: &mut Work<'a, T>,
    left: Part,
    right: Part,
) -> Result<Part, AllocError>
    requires left { IsPart T.cmp work.old.values.items left }
    requires right { IsPart T.cmp work.old.values.items right }
    ensures kept { OnOk result (KeepsParts work.old.values.items work.new.values.items) }
    ensures part { IfOk result (IsPart T.cmp work.new.values.items) }
    ensures joined { IfOk result (λ part. told work.new.values.items part
        ≡ joined T.cmp (told work.old.values.items left) (told work.old.values.items right)) }
{
    if left.len == 0 {
        return Ok(left);
    }
    if right.len == 0 {
        return Ok(right);
    }
    if left.len == 1 && right.len == 1 {
        return join_values(work, left, right);
    }
    add_joined(work, left, right)
}

/// Lets the values from `start` on go, once they are many, but for those of the part, and tells where it stands then.
pub fn cut<'a, T>(work: &mut Work<'a, T>, start: usize, part: Part) -> Result<Part, AllocError>
    requires start { start ≤ length work.old.values.items }
    requires part { part.start + part.len ≤ length work.old.values.items }
    ensures kept { OnOk result (KeepsParts (take start work.old.values.items) work.new.values.items) }
    ensures within { IfOk result (λ cut. cut.start + cut.len ≤ length work.new.values.items) }
    ensures values { IfOk result (λ cut. values_of work.new.values.items cut ≡ values_of work.old.values.items part) }
{
    let added = work.values.len() - start;
    if added < MANY {
        return Ok(part);
    }
    let end = part.start + part.len;
    if end <= start {
        work.values.truncate(start);
        return Ok(part);
    }
    work.spare.clear();
    work.spare
        .extend_from_slice(&work.values[part.start..part.start + part.len])?;
    work.values.truncate(start);
    work.values.extend_from_slice(&work.spare)?;
    Ok(Part {
        start,
        len: part.len,
    })
}
