/// Whether there is neither item, or both are equal.
fn is_same<T: PartialEq + Drop>(item: Option<T>, want: Option<&T>) -> bool {
    match (item, want) {
        (Some(item), Some(want)) => item == *want,
        (None, None) => true,
        _ => false,
    }
}

/// Whether an iterator gives these items, three at most, in this order, and then ends, and stays ended.
pub fn gives<I: Iterator + Drop>(items: I, want: &[I::Item]) -> bool
where
    I::Item: PartialEq + Drop,
    requires { (s : I) → I.can_next s }
{
    let mut items = items;
    is_same(items.next(), want.first())
        && is_same(items.next(), want.get(1))
        && is_same(items.next(), want.get(2))
        && items.next().is_none()
        && items.next().is_none()
}
