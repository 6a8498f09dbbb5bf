use either::{Either, Left, Right};
use prefix_joint::JointPrefix;

type Pair = Either<(u32, u8), (u128, u8)>;

const SITE: u128 = 0x2001_0db8_0001_0000_0000_0000_0000_0001;

#[test]
fn keeps_the_first_family(rt: HostRuntime) {
    for len in [0, 24, 32, 255] {
        let value = Pair::from_p1(&(0x0a01_0181, len));
        match value.p1_or_p2_ref() {
            Left(p) => assert_eq!(rt; *p, (0x0a01_0181, len)),
            Right(_) => assert!(rt; false, "of {len}"),
        }
        assert_eq!(rt; value.p1_or_p2(), Left((0x0a01_0181, len)));
    }
}

#[test]
fn keeps_the_second_family(rt: HostRuntime) {
    for len in [0, 48, 128, 255] {
        let value = Pair::from_p2(&(SITE, len));
        match value.p1_or_p2_ref() {
            Left(_) => assert!(rt; false, "of {len}"),
            Right(p) => assert_eq!(rt; *p, (SITE, len)),
        }
        assert_eq!(rt; value.p1_or_p2(), Right((SITE, len)));
    }
}
