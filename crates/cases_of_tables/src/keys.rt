use prefix_table::Bits;

const SITE: u128 = 0x2001_0db8_0001_0000_0000_0000_0000_0001;

#[test]
fn reads_bits(rt: HostRuntime) {
    assert_eq!(rt; <u32 as Bits>::WIDTH, 32);
    assert_eq!(rt; <u128 as Bits>::WIDTH, 128);
    for (i, want) in [
        (0, false),
        (3, false),
        (4, true),
        (5, false),
        (6, true),
        (7, false),
        (31, true),
    ] {
        assert!(rt; i < 32);
        assert_eq!(rt; 0x0a00_0001_u32.bit(i), want, "at {i}");
    }
    for (i, want) in [
        (0, false),
        (2, true),
        (15, true),
        (16, false),
        (47, true),
        (126, false),
        (127, true),
    ] {
        assert!(rt; i < 128);
        assert_eq!(rt; SITE.bit(i), want, "at {i}");
    }
}

#[test]
fn keeps_first_bits(rt: HostRuntime) {
    let short = [
        (0, 0),
        (1, 0),
        (8, 0x0a00_0000),
        (23, 0x0a01_0000),
        (24, 0x0a01_0100),
        (25, 0x0a01_0180),
        (31, 0x0a01_0180),
        (32, 0x0a01_0181),
    ];
    for (len, want) in short {
        assert!(rt; len <= 32);
        assert_eq!(rt; 0x0a01_0181_u32.keep(len), want, "of {len}");
    }
    let long = [
        (0, 0),
        (3, 0x2000_0000_0000_0000_0000_0000_0000_0000),
        (32, 0x2001_0db8_0000_0000_0000_0000_0000_0000),
        (48, 0x2001_0db8_0001_0000_0000_0000_0000_0000),
        (127, 0x2001_0db8_0001_0000_0000_0000_0000_0000),
        (128, SITE),
    ];
    for (len, want) in long {
        assert!(rt; len <= 128);
        assert_eq!(rt; SITE.keep(len), want, "of {len}");
    }
}

#[test]
fn sets_bits(rt: HostRuntime) {
    assert_eq!(rt; 0_u32.with_bit(0), 0x8000_0000);
    assert_eq!(rt; 0_u32.with_bit(31), 1);
    assert_eq!(rt; 0x0a00_0000_u32.with_bit(15), 0x0a01_0000);
    assert_eq!(rt; 0x0a00_0000_u32.with_bit(4), 0x0a00_0000, "set before");
    assert_eq!(rt;
        0_u128.with_bit(0),
        0x8000_0000_0000_0000_0000_0000_0000_0000
    );
    assert_eq!(rt; 0_u128.with_bit(127), 1);
    assert_eq!(rt;
        SITE.with_bit(46),
        0x2001_0db8_0003_0000_0000_0000_0000_0001
    );
    assert_eq!(rt; SITE.with_bit(127), SITE, "set before");
}

#[test]
fn goes_by_parts(rt: HostRuntime) {
    assert_eq!(rt; 0xa5_u8.number_between(3, 8), 0b00101);
    assert_eq!(rt; 0xa5a5_u16.with_number(11, 31, 5), 0xa5bf);
    assert_eq!(rt; 0xa5a5_0000_u32.with_number(8, 1, 5), 0xa508_0000);
    assert!(rt; !5_u64.same_front(4, 64));
    assert!(rt; SITE.same_front(SITE + 1, 126));
    assert_eq!(rt; 0xa5_usize.number_between(56, 60), 0b1010);
}
