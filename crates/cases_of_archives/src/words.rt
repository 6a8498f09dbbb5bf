// Archives worked out by hand, as words, and what makes bytes of words.
use either::Either;
use prefix_layout::write_family;
use prefix_table::Table;
use std::alloc::{AllocError, Global};
use std::test::Fail;

pub(crate) type Pair = Either<(u32, u8), (u128, u8)>;

pub(crate) const EMPTY: &[u32] = &[1, 0, 0, 0, 0, 1];

// 10.0.0.0/8 with the value 1.
pub(crate) const ONE_OCTET: &[u32] = &[2, 1, 0, 2, 0, 1, 0x200, 0, 0, 2, 1];

// The quarters with the values 1, 2, 2 and 3.
pub(crate) const FOUR_QUARTERS: &[u32] = &[1, 4, 0x78, 0, 0, 1, 1, 2, 2, 3];

// 0000 with the value 1, 00000 with 2 and 0001 with 2.
pub(crate) const ACROSS_NODES: &[u32] = &[2, 3, 0x18000, 1, 0, 1, 1, 0, 2, 2, 1, 2, 2];

pub(crate) fn push_words(bytes: &mut Vec<u8>, words: &[u32]) -> Result<(), AllocError> {
    for word in words {
        bytes.extend_from_slice(&word.to_le_bytes())?;
    }
    Ok(())
}

// Words, and then bytes.
pub(crate) fn bytes_of(alloc: Global, words: &[u32], tail: &[u8]) -> Result<Vec<u8>, AllocError> {
    let mut bytes = Vec::new(alloc);
    push_words(&mut bytes, words)?;
    bytes.extend_from_slice(tail)?;
    Ok(bytes)
}

// One archive behind another.
pub(crate) fn joined(alloc: Global, first: &[u32], second: &[u32]) -> Result<Vec<u8>, AllocError> {
    let mut bytes = bytes_of(alloc, first, &[])?;
    push_words(&mut bytes, second)?;
    Ok(bytes)
}

// The archive of 10.0.0.0/8 with 1, 10.1.0.0/16 with 2 and 10.1.1.0/24 with 3.
pub(crate) fn three_routes(alloc: Global) -> Result<Vec<u8>, Fail> {
    let mut table: Table<u32> = Table::new(alloc);
    for (key, len, value) in [
        (0x0a00_0000_u32, 8, 1),
        (0x0a01_0000, 16, 2),
        (0x0a01_0100, 24, 3),
    ] {
        let _before = table.insert(key, len, value).map_err(|_| AllocError)?;
    }
    let mut bytes = Vec::new(alloc);
    write_family(alloc, &table, &mut bytes)?;
    Ok(bytes)
}
