use prefix_aggregate::{
    fold_children, fold_coverage, fold_l1, fold_l2, fold_l3, fold_l4, member_coverage,
    parent_coverage, push_l0, push_l1, push_l2, push_l3, push_l4,
};

#[test]
fn folds_pairs(rt: HostRuntime) {
    assert_eq!(rt; fold_l1(1 << 1 | 1 << 2), 1 << 0);
    assert_eq!(rt; fold_l2(1 << 5 | 1 << 6), 1 << 2);
    assert_eq!(rt; fold_l3(1 << 13 | 1 << 14), 1 << 6);
    assert_eq!(rt; fold_l4(1 << 29 | 1 << 30), 1 << 14);
    assert_eq!(rt; fold_children(1 << 30 | 1 << 31), 1 << 30);
    assert_eq!(rt; fold_l1(1 << 1), 0, "one half");
    assert_eq!(rt; fold_l2(1 << 6), 0, "one half");
    assert_eq!(rt; fold_l3(1 << 13), 0, "one half");
    assert_eq!(rt; fold_l4(1 << 30), 0, "one half");
    assert_eq!(rt; fold_children(1 << 31), 0, "one slot");
}

#[test]
fn pushes_pairs(rt: HostRuntime) {
    assert_eq!(rt; push_l0(1 << 0), 1 << 1 | 1 << 2);
    assert_eq!(rt; push_l1(1 << 2), 1 << 5 | 1 << 6);
    assert_eq!(rt; push_l2(1 << 6), 1 << 13 | 1 << 14);
    assert_eq!(rt; push_l3(1 << 14), 1 << 29 | 1 << 30);
    assert_eq!(rt; push_l4(1 << 30), 1 << 30 | 1 << 31);
    assert_eq!(rt; push_l1(1 << 0 | 1 << 3 | 1 << 4), 0, "other levels");
}

#[test]
fn finds_what_covers(rt: HostRuntime) {
    let cases = [(1 << 1 | 1 << 7, 1 << 1), (1 << 7 | 1 << 8, 1 << 3)];
    for (data, want) in cases {
        let whole = fold_coverage(data, 0);
        let (below, _) = member_coverage(data);
        assert_eq!(rt; whole & !parent_coverage(whole) & !below, want);
    }
    let (_, slots) = member_coverage(1 << 15);
    assert_eq!(rt; slots, 0b11);
}
