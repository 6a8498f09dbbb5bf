//! The first entry of a table in key order from a key on.
ghost use Rattle.std.specs.Prelude.{◌≡◌, ◌≤◌, ◌+◌, Some, IfSome, MatchOption};
ghost use Rattle.std.specs.Option.{option_map};
ghost use Rattle.std.specs.FinMap as map;
ghost use Rattle.prefix_model.specs.Walks.{begins_with};
ghost use Rattle.prefix_model.specs.TableViews.{key_of};
ghost use Rattle.prefix_map.specs.MapViews.{FitsIn};
ghost use Rattle.prefix_map.specs.Searches.{IsFound, IsPosition, entry_from, walked_from, Steps, IsAt, found_key};
ghost use Rattle.prefix_model.specs.Hits.{HasNoneIn, IsLastIn, IsFirstIn};
ghost use Rattle.prefix_model.specs.Matches.{IsShortestFrom, IsLongestOf};
ghost use Rattle.prefix_map.specs.Matches.{IsFront};

use crate::descent::first_from;
use crate::hits::{Match, child_towards, first_in, last_in};
use prefix_table::{Bits, K, Table, same_front};

/// An entry that a search found. Its key is the first `len` bits of `key`, with zeros behind them.
#[derive(Drop)]
pub(crate) struct Found<'a, R, T> {
    pub(crate) key: R,
    pub(crate) len: u32,
    pub(crate) value: &'a T,
}

/// Where a walk stands: at the key of the first `len` bits, in the entries whose keys begin with the first `within`.
#[derive(Clone, Copy)]
pub(crate) struct Position<R> {
    pub(crate) key: R,
    pub(crate) within: u32,
    pub(crate) len: u32,
    pub(crate) inclusive: bool,
}

/// Whether a key begins with the bits with which the keys of a walk begin.
fn is_within<R: Bits>(key: R, len: u32, position: &Position<R>) -> bool
    requires fits { len ≤ R.WIDTH }
    requires position { IsPosition R.WIDTH position.now }
    ensures { result ≡ begins_with (walked_from R.bits position.now) (key_of (R.bits key) len) }
{
    let within = position.within;
    if len < within {
        return false;
    }
    same_front(position.key, key, within)
}

/// The first entry of a walk from its position on, at which the walk then stands.
pub(crate) fn step<'a, R: Bits, T>(
    table: &'a Table<T>,
    position: &mut Position<R>,
) -> Option<Found<'a, R, T>>
    requires fits { FitsIn R.WIDTH table.now }
    requires position { IsPosition R.WIDTH position.old }
    ensures position { IsPosition R.WIDTH position.new }
    ensures rest { Steps R.bits table.now.entries position.old result position.new }
    ensures found { IfSome result (IsFound R.bits R.WIDTH 0 (R.bits position.old.key)) }
    ensures within { position.new.within ≡ position.old.within }
    ensures at { IfSome result (λ found. IsAt found position.new) }
    ensures stored { IfSome result (λ found. map.get table.now.entries (found_key R.bits found) ≡ Some found.value.now) }
{
    let found = first_from(table, table.root(), 0, position)?;
    let inside = is_within(found.key, found.len, position);
    if inside {
        *position = Position {
            key: found.key,
            within: position.within,
            len: found.len,
            inclusive: false,
        };
        return Some(found);
    }
    None
}

/// The entry of a stored front of a key.
fn found_of<'a, R: Bits, T>(key: R, found: Match<'a, T>) -> Found<'a, R, T>
    requires { found.len ≤ R.WIDTH }
    ensures front { IsFront R.bits R.WIDTH (R.bits key) found.entry.len result }
    ensures len { result.len ≡ found.entry.len }
    ensures value { result.value.now ≡ found.entry.value.now }
{
    Found {
        key: key.keep(found.len),
        len: found.len,
        value: found.value,
    }
}

/// The match further down, if there is one, and else the one that was found before.
#[inline]
fn deeper<'a, T>(before: Option<Match<'a, T>>, found: Option<Match<'a, T>>) -> Option<Match<'a, T>>
    ensures { MatchOption found.entry (result ≡ before.entry) (λ x. result ≡ found.entry) }
{
    match found {
        Some(x) => Some(x),
        None => before,
    }
}

/// The shortest stored front of the first `to` bits of a key that has at least `from` bits: one descent.
fn shortest_match<'a, R: Bits, T>(
    table: &'a Table<T>,
    key: R,
    from: u32,
    to: u32,
) -> Option<Match<'a, T>>
    requires { to ≤ R.WIDTH }
    ensures { MatchOption result (HasNoneIn table.now.entries (R.bits key) from (to + 1))
        (λ x. IsFirstIn table.now.entries (R.bits key) from (to + 1) x.len x.value.now) }
{
    let mut at = table.root();
    let mut depth = 0;
    let mut found = first_in(table, at, key, 0, from, to);
    while to - depth >= K {
        if found.is_some() {
            return found;
        }
        match child_towards(table, at, key, depth) {
            Some(child) => at = child,
            None => return None,
        }
        depth += K;
        found = first_in(table, at, key, depth, from, to);
    }
    found
}

/// The longest stored front of the first `len` bits of a key: one descent.
fn longest_match<'a, R: Bits, T>(table: &'a Table<T>, key: R, len: u32) -> Option<Match<'a, T>>
    requires { len ≤ R.WIDTH }
    ensures { MatchOption result (HasNoneIn table.now.entries (R.bits key) 0 (len + 1))
        (λ x. IsLastIn table.now.entries (R.bits key) 0 (len + 1) x.len x.value.now) }
{
    let mut at = table.root();
    let mut depth = 0;
    let mut best = last_in(table, at, key, 0, len);
    while len - depth >= K {
        match child_towards(table, at, key, depth) {
            Some(child) => at = child,
            None => return best,
        }
        depth += K;
        best = deeper(best, last_in(table, at, key, depth, len));
    }
    best
}

/// The stored key of at least `from` and at most `to` bits that is the shortest front of a key.
pub(crate) fn shortest_front<'a, R: Bits, T>(
    table: &'a Table<T>,
    key: R,
    from: u32,
    to: u32,
) -> Option<Found<'a, R, T>>
    requires { to ≤ R.WIDTH }
    ensures found { IsShortestFrom (map.get table.now.entries) (R.bits key) from to (option_map (entry_from R.bits 0) result) }
    ensures key { IfSome result (IsFront R.bits R.WIDTH (R.bits key) to) }
{
    match shortest_match(table, key, from, to) {
        Some(found) => Some(found_of(key, found)),
        None => None,
    }
}

/// The stored key that is the longest front of the first `len` bits of a key.
pub(crate) fn longest_front<'a, R: Bits, T>(
    table: &'a Table<T>,
    key: R,
    len: u32,
) -> Option<Found<'a, R, T>>
    requires { len ≤ R.WIDTH }
    ensures found { IsLongestOf (map.get table.now.entries) (R.bits key) len (option_map (entry_from R.bits 0) result) }
    ensures key { IfSome result (IsFront R.bits R.WIDTH (R.bits key) len) }
{
    match longest_match(table, key, len) {
        Some(found) => Some(found_of(key, found)),
        None => None,
    }
}
