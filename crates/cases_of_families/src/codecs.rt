// Spellings worked out by hand.
use prefix_layout::ValueCodec;
use std::alloc::{AllocError, Global};
use std::cmp::Ordering;
use std::test::Fail;

// Whether the value is spelled so, and read again.
fn spelled_as<T: ValueCodec + Drop>(
    alloc: Global,
    value: T,
    bytes: &[u8],
) -> Result<bool, AllocError> {
    let mut out: Vec<u8> = Vec::new(alloc);
    for _ in 0..T::SIZE {
        out.push(0xee)?;
    }
    if out.len() != T::SIZE {
        return Ok(false);
    }
    value.write(&mut out);
    if out.as_slice() != bytes || !T::check(&out) {
        return Ok(false);
    }
    Ok(T::read(alloc, &out)? == value)
}

#[test]
fn least_significant_byte_first(rt: HostRuntime) -> Result<(), Fail> {
    assert!(rt; spelled_as(rt.alloc(), 0xab_u8, &[0xab])?);
    assert!(rt; spelled_as(rt.alloc(), 0x1234_u16, &[0x34, 0x12])?);
    assert!(rt; spelled_as(rt.alloc(), 0x1234_5678_u32, &[0x78, 0x56, 0x34, 0x12])?);
    assert!(rt;
        spelled_as(
            rt.alloc(),
            0x0102_0304_0506_0708_u64,
            &[8, 7, 6, 5, 4, 3, 2, 1]
        )?
    );
    assert!(rt;
        spelled_as(
            rt.alloc(),
            0x0102_0304_0506_0708_090a_0b0c_0d0e_0f10_u128,
            &[16, 15, 14, 13, 12, 11, 10, 9, 8, 7, 6, 5, 4, 3, 2, 1],
        )?
    );
    assert!(rt; spelled_as(rt.alloc(), (), &[])?);
    Ok(())
}

#[test]
fn compares_numbers_not_bytes(rt: HostRuntime) {
    assert_eq!(rt; <u8 as ValueCodec>::compare(&[2], &[1]), Ordering::Greater);
    assert_eq!(rt;
        <u16 as ValueCodec>::compare(&[0, 1], &[1, 0]),
        Ordering::Greater
    );
    assert_eq!(rt;
        <u32 as ValueCodec>::compare(&[0xff, 0, 0, 0], &[0, 1, 0, 0]),
        Ordering::Less
    );
    assert_eq!(rt;
        <u64 as ValueCodec>::compare(&[7; 8], &[7; 8]),
        Ordering::Equal
    );
    let mut high = [0; 16];
    high[15] = 1;
    assert_eq!(rt;
        <u128 as ValueCodec>::compare(&high, &[255, 0, 0, 0, 0, 0, 0, 0, 0, 0, 0, 0, 0, 0, 0, 0]),
        Ordering::Greater
    );
    assert_eq!(rt; <() as ValueCodec>::compare(&[], &[]), Ordering::Equal);
}
