//! Equality of views.
ghost use Rattle.std.specs.Prelude.{◌≡◌, ◌↔◌, ◌≤◌, IsTrue, IsSome, Some, take};
ghost use Rattle.std.specs.FinMap.{get};
ghost use Rattle.prefix_view.specs.Pairs.{AsksPairs};
ghost use Rattle.prefix_model.specs.Views.{walk_of, HaveSameKeys};

use crate::iter::ViewIter;
use crate::view::TrieView;
use prefix_table::Bits;

/// Whether two integers, of widths that may differ, begin with the same `len` bits.
fn same_fronts<A: Bits, B: Bits>(a: A, b: B, len: u32) -> bool
    requires first { len ≤ A.WIDTH }
    requires second { len ≤ B.WIDTH }
    ensures { IsTrue result ↔ (take len (A.bits a) ≡ take len (B.bits b)) }
{
    for i in 0..len {
        if a.bit(i) != b.bit(i) {
            return false;
        }
    }
    true
}

/// Whether two views, of tables that may differ, stand at the same place.
fn same_place<L: TrieView, R: TrieView>(left: L, right: R) -> bool
    ensures { IsTrue result ↔ ((L.seen left).place ≡ (R.seen right).place) }
{
    let len = left.prefix_len();
    if right.prefix_len() != len {
        return false;
    }
    same_fronts(left.key(), right.key(), len)
}

/// Whether two views have the same keys.
pub(crate) fn have_same_keys<L: TrieView, R: TrieView>(left: L, right: R) -> bool
    ensures { IsTrue result ↔ HaveSameKeys (L.seen left) (R.seen right) }
{
    let mut lefts = ViewIter::new(left);
    let mut rights = ViewIter::new(right);
    'pairs: while let Some(at) = lefts.advance() {
        match rights.advance() {
            Some(other) => {
                if !same_place(at, other) {
                    return false;
                }
            }
            None => return false,
        }
    }
    rights.advance().is_none()
}

/// The closure's answer at the values of two views, at each of whose places something is stored.
fn answer_at<L: TrieView, R: TrieView, F: FnMut(L::T, R::T) -> bool>(
    cmp: &mut F,
    left: L,
    right: R,
) -> bool
    requires callable { F.IsAlwaysCallable cmp.old }
    requires left { IsSome (get (L.seen left).entries (L.seen left).place) }
    requires right { IsSome (get (R.seen right).entries (R.seen right).place) }
    ensures callable { F.IsAlwaysCallable cmp.new }
    ensures asked { (x : L.T) × (y : R.T) × (Some (L.value_of x) ≡ get (L.seen left).entries (L.seen left).place)
        × (Some (R.value_of y) ≡ get (R.seen right).entries (R.seen right).place) × F.step cmp.old x y result cmp.new }
{
    match (left.value(), right.value()) {
        (Some(x), Some(y)) => cmp(x, y),
        _ => unreachable!(),
    }
}

/// Whether two views have the same keys and the closure answers true at each pair of their values. It is asked once
/// for each pair in key order, until the keys differ, a side ends or an answer is false.
pub(crate) fn agree_by<L: TrieView, R: TrieView, F: FnMut(L::T, R::T) -> bool>(
    left: L,
    right: R,
    mut cmp: F,
) -> bool
    requires { F.IsAlwaysCallable cmp }
    ensures { AsksPairs (λ f x y r g. F.step f x y r g) L.value_of R.value_of cmp
        (walk_of (L.seen left)) (walk_of (R.seen right)) result }
{
    let mut lefts = ViewIter::new(left);
    let mut rights = ViewIter::new(right);
    'pairs: while let Some(a) = lefts.advance() {
        match rights.advance() {
            Some(b) => {
                if !same_place(a, b) {
                    return false;
                }
                if !answer_at(&mut cmp, a, b) {
                    return false;
                }
            }
            None => return false,
        }
    }
    rights.advance().is_none()
}
