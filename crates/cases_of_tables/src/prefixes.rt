use prefix_table::{Prefix, fits};

const SITE: u128 = 0x2001_0db8_0001_0000_0000_0000_0000_0001;

#[test]
fn tells_what_it_was_made_of(rt: HostRuntime) {
    let short = (0x0a01_0181_u32, 24_u8);
    assert_eq!(rt; short.repr(), 0x0a01_0181, "the host bits stay");
    assert_eq!(rt; short.prefix_len(), 24);
    assert_eq!(rt; <(u32, u8) as Prefix>::num_bits(), 32);
    let long = (SITE, 48_u8);
    assert_eq!(rt; long.repr(), SITE, "the host bits stay");
    assert_eq!(rt; long.prefix_len(), 48);
    assert_eq!(rt; <(u128, u8) as Prefix>::num_bits(), 128);
}

#[test]
fn clears_host_bits(rt: HostRuntime) {
    let short = [
        (0, 0),
        (8, 0x0a00_0000),
        (24, 0x0a01_0100),
        (25, 0x0a01_0180),
        (32, 0x0a01_0181),
    ];
    for (len, want) in short {
        assert!(rt; len <= 32);
        assert_eq!(rt; (0x0a01_0181_u32, len).mask(), want, "of {len}");
        let made = <(u32, u8) as Prefix>::from_repr_len(0x0a01_0181, len);
        assert_eq!(rt; made.repr(), want, "of {len}");
        assert_eq!(rt; made.prefix_len(), len);
    }
    let long = [
        (0, 0),
        (32, 0x2001_0db8_0000_0000_0000_0000_0000_0000),
        (127, 0x2001_0db8_0001_0000_0000_0000_0000_0000),
        (128, SITE),
    ];
    for (len, want) in long {
        assert!(rt; len <= 128);
        assert_eq!(rt; (SITE, len).mask(), want, "of {len}");
        let made = <(u128, u8) as Prefix>::from_repr_len(SITE, len);
        assert_eq!(rt; made.repr(), want, "of {len}");
        assert_eq!(rt; made.prefix_len(), len);
    }
}

#[test]
fn contains_what_begins_with_it(rt: HostRuntime) {
    let cases = [
        ((0x0a00_0000, 8), (0x0a01_0000, 16), true),
        ((0x0a00_0000, 8), (0x0b01_0000, 16), false),
        ((0x0a01_0000, 16), (0x0a00_0000, 8), false),
        ((0x0aff_ffff, 8), (0x0a01_0000, 8), true),
        ((0xffff_ffff, 0), (0x0a01_0000, 0), true),
        ((0xffff_ffff, 0), (0x0a01_0181, 32), true),
        ((0x0a01_0181, 32), (0x0a01_0181, 32), true),
        ((0x0a01_0181, 32), (0x0a01_0180, 32), false),
    ];
    for (outer, inner, want) in cases {
        let (outer, inner): ((u32, u8), (u32, u8)) = (outer, inner);
        assert!(rt; outer.1 <= 32);
        assert!(rt; inner.1 <= 32);
        assert_eq!(rt; outer.contains(&inner), want, "{} in {}", inner.0, outer.0);
    }
    assert!(rt; (SITE, 48_u8).contains(&(SITE, 128_u8)));
    assert!(rt; !(SITE, 128_u8).contains(&(SITE, 127_u8)));
    assert!(rt; !(SITE, 16_u8).contains(&(0_u128, 16_u8)));
    assert!(rt;
        (SITE, 2_u8).contains(&(0_u128, 16_u8)),
        "the first two bits are clear"
    );
}

#[test]
fn fits_up_to_the_width(rt: HostRuntime) {
    assert!(rt; fits(&(0_u32, 32_u8)));
    assert!(rt; !fits(&(0_u32, 33_u8)));
    assert!(rt; fits(&(0_u128, 128_u8)));
    assert!(rt; !fits(&(0_u128, 129_u8)));
}

#[test]
fn serves_each_key_type(rt: HostRuntime) {
    let outer = <(u8, u8) as Prefix>::from_repr_len(0xa5, 3);
    assert!(rt; outer.repr() == 0xa0 && outer.contains(&(0xbf, 8)) && !outer.contains(&(0xe0, 3)));
    let outer = <(u16, u8) as Prefix>::from_repr_len(0xa5a5, 9);
    assert!(rt;
        outer.repr() == 0xa580 && outer.contains(&(0xa5ff, 16)) && !outer.contains(&(0xa500, 9))
    );
    let outer = <(u32, u8) as Prefix>::from_repr_len(0x0a01_0181, 25);
    assert!(rt;
        outer.repr() == 0x0a01_0180
            && outer.contains(&(0x0a01_01ff, 32))
            && !outer.contains(&(0x0a01_0100, 25))
    );
    let outer = <(u64, u8) as Prefix>::from_repr_len(0x2001_0db8_ffff_ffff, 32);
    assert!(rt;
        outer.repr() == 0x2001_0db8_0000_0000
            && outer.contains(&(0x2001_0db8_0000_0001, 64))
            && !outer.contains(&(0x2001_0db9_0000_0000, 32))
    );
    let outer = <(u128, u8) as Prefix>::from_repr_len(SITE, 33);
    assert!(rt;
        outer.repr() == 0x2001_0db8 << 96
            && outer.contains(&(SITE, 128))
            && !outer.contains(&(SITE | 1 << 95, 33))
    );
    let outer = <(usize, u8) as Prefix>::from_repr_len(0xffff, 50);
    assert!(rt;
        outer.repr() == 0xc000 && outer.contains(&(0xc001, 64)) && !outer.contains(&(0x8000, 50))
    );
}
