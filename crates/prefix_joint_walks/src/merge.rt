//! Two walks over one family, merged in key order.
ghost use Rattle.std.specs.Prelude.{◌≡◌, ◌≤◌, drop, length};
ghost use Rattle.std.specs.Iterator.{at_most};
ghost use Rattle.prefix_model.specs.Keys.{key_cmp};
ghost use Rattle.prefix_model.specs.TableViews.{key_of};
ghost use Rattle.prefix_map.specs.Items.{IsItem};
ghost use Rattle.prefix_map.specs.Iterators.{iter_left};
ghost use Rattle.prefix_joint_walks.specs.Unions.{merged, next_of, on_left, on_right, item_prefix, item_sides, IsPlain, GivesUnion};

use crate::union::UnionItem;
use prefix_map::bare;
use prefix_map::map::iter::Iter as FamilyIter;
use prefix_table::{Bits, PrefixBits, PrefixKey};
use std::cmp::Ordering;

/// How two keys stand in key order from the bit `at` on, where they are one before it.
fn compare_from<R: Bits>(a: R, a_len: u32, b: R, b_len: u32, at: u32) -> Ordering
    requires a { a_len ≤ R.WIDTH }
    requires b { b_len ≤ R.WIDTH }
    requires at { (at ≤ a_len) × (at ≤ b_len) }
    ensures { result ≡ key_cmp (drop at (key_of (R.bits a) a_len)) (drop at (key_of (R.bits b) b_len)) }
{
    if at == a_len {
        return if at == b_len {
            Ordering::Equal
        } else {
            Ordering::Less
        };
    }
    if at == b_len {
        return Ordering::Greater;
    }
    match a.bit(at).cmp(&b.bit(at)) {
        Ordering::Less => Ordering::Less,
        Ordering::Greater => Ordering::Greater,
        Ordering::Equal => compare_from(a, a_len, b, b_len, at + 1),
    }
}

/// How the keys of two prefixes stand in key order.
fn compare<P: PrefixBits>(a: &P, b: &P) -> Ordering
    requires a { P.prefix_len a.now ≤ P.R.WIDTH }
    requires b { P.prefix_len b.now ≤ P.R.WIDTH }
    ensures { result ≡ key_cmp (P.key a.now) (P.key b.now) }
{
    let a_len = u32::from(a.prefix_len());
    let b_len = u32::from(b.prefix_len());
    compare_from(a.repr(), a_len, b.repr(), b_len, 0)
}

/// Two walks over one family, merged in key order. Of each it holds the next entry.
#[derive(Drop)]
pub(crate) struct Merge<'a, P: PrefixKey, L, R> {
    left: FamilyIter<'a, P, L>,
    next_left: Option<(P, &'a L)>,
    right: FamilyIter<'a, P, R>,
    next_right: Option<(P, &'a R)>,
    ghost left_fits: { next_of 0 P.prefix_len next_left ≤ P.WIDTH },
    ghost right_fits: { next_of 0 P.prefix_len next_right ≤ P.WIDTH },
}

impl<'a, P: PrefixBits + Copy, L, R> Merge<'a, P, L, R> {
    ghost use Rattle.prefix_joint_walks.specs.JointIterators.{merge_left};

    /// The walks of both iterators.
    pub(crate) fn new(left: FamilyIter<'a, P, L>, right: FamilyIter<'a, P, R>) -> Self
        ensures { merge_left result ≡ merged (iter_left left.entry) (iter_left right.entry) }
    {
        let mut left = left;
        let mut right = right;
        let next_left = left.next();
        let next_right = right.next();
        Merge {
            left,
            next_left,
            right,
            next_right,
        }
    }
}

impl<'a, P: PrefixBits + Copy, L, R> Iterator for Merge<'a, P, L, R> {
    type Item = UnionItem<'a, P, L, R>;

    ghost use Rattle.prefix_joint_walks.specs.JointIterators.{merge_left};

    ghost next_gives = { λ s r t. GivesUnion P.R.WIDTH P.PrefixKey (merge_left s) r (merge_left t) };

    ghost remaining = { λ s. at_most (length (merge_left s)) };

    fn next(&mut self) -> Option<UnionItem<'a, P, L, R>> {
        match (self.next_left.take(), self.next_right.take()) {
            (None, None) => None,
            (Some((prefix, left)), None) => {
                self.next_left = self.left.next();
                Some(left_item(bare(&prefix), left))
            }
            (None, Some((prefix, right))) => {
                self.next_right = self.right.next();
                Some(right_item(bare(&prefix), right))
            }
            (Some((prefix, left)), Some((other, right))) => match compare(&prefix, &other) {
                Ordering::Less => {
                    self.next_left = self.left.next();
                    self.next_right = Some((other, right));
                    Some(left_item(bare(&prefix), left))
                }
                Ordering::Equal => {
                    self.next_left = self.left.next();
                    self.next_right = self.right.next();
                    Some(UnionItem::Both {
                        prefix: bare(&prefix),
                        left,
                        right,
                    })
                }
                Ordering::Greater => {
                    self.next_left = Some((prefix, left));
                    self.next_right = self.right.next();
                    Some(right_item(bare(&other), right))
                }
            },
        }
    }
}

/// The item of a key that the left map alone has.
pub(crate) fn left_item<'a, P, L, R>(prefix: P, left: &'a L) -> UnionItem<'a, P, L, R>
    ensures prefix { item_prefix result ≡ prefix }
    ensures sides { item_sides result ≡ on_left left.now }
    ensures plain { IsPlain result }
{
    UnionItem::Left {
        prefix,
        left,
        right: None,
    }
}

/// The item of a key that the right map alone has.
pub(crate) fn right_item<'a, P, L, R>(prefix: P, right: &'a R) -> UnionItem<'a, P, L, R>
    ensures prefix { item_prefix result ≡ prefix }
    ensures sides { item_sides result ≡ on_right right.now }
    ensures plain { IsPlain result }
{
    UnionItem::Right {
        prefix,
        left: None,
        right,
    }
}
