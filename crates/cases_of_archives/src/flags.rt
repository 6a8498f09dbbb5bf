// Values that not each byte spells.
use crate::words::{EMPTY, Pair, bytes_of, push_words};
use prefix_joint_archive::{ArchivedJointPrefixMap, compact_archive};
use prefix_layout::{ArchiveError, ValueCodec};
use std::alloc::{AllocError, Global};
use std::cmp::Ordering;
use std::marker::Model;
use std::test::Fail;

#[derive(Clone, Copy, PartialEq, Eq, PartialOrd, Ord)]
struct Flag {
    set: bool,
}

impl Model for Flag {
    ghost use Rattle.std.specs.Prelude.{Bool};

    ghost Value = { Bool };

    ghost view = { λ flag. flag.set };

    ghost inverse = { λ set. record { set = set } };
}

impl ValueCodec for Flag {
    ghost use Rattle.std.proofs.Common.{refl, lit≤};
    ghost use Rattle.cases_of_archives.specs.Flags.{flag_codec, flag_lawful, flags_apart};

    const SIZE: usize = 1;

    ghost SIZE = { 1 };

    ghost codec = { flag_codec };

    fn write(&self, out: &mut [u8]) {
        out.copy_from_slice(&[if self.set { 1 } else { 0 }]);
    }

    fn check(bytes: &[u8]) -> bool {
        bytes[0] < 2
    }

    fn read(_alloc: Global, bytes: &[u8]) -> Result<Flag, AllocError> {
        Ok(Flag { set: bytes[0] == 1 })
    }

    fn compare(left: &[u8], right: &[u8]) -> Ordering {
        let left = Flag { set: left[0] == 1 };
        let right = Flag { set: right[0] == 1 };
        left.cmp(&right)
    }

    ghost size_is = { refl };

    ghost small = { lit≤ tt };

    ghost lawful = { flag_lawful };

    ghost apart = { λ a b _ _ e. flags_apart a b e };
}

// The archive of the empty key with this byte for its value, and of an empty table.
fn one_flag(alloc: Global, byte: u8) -> Result<Vec<u8>, AllocError> {
    let mut bytes = bytes_of(alloc, &[1, 1, 1, 0, 0, 1], &[byte])?;
    push_words(&mut bytes, EMPTY)?;
    Ok(bytes)
}

// Whether these bytes are refused as an invalid value, or else are given back.
fn refused_or_least(alloc: Global, bytes: &[u8], refused: bool) -> bool {
    let accessed = match ArchivedJointPrefixMap::<Pair, Flag>::access(bytes) {
        Ok(pair) => !refused && pair.len() == 1,
        Err(found) => refused && found == ArchiveError::InvalidValue,
    };
    let compacted = match compact_archive::<Pair, Flag>(alloc, bytes) {
        Ok(least) => !refused && least.as_slice() == bytes,
        Err(found) => refused && found == ArchiveError::InvalidValue,
    };
    accessed && compacted
}

#[test]
fn a_value_is_refused(rt: HostRuntime) -> Result<(), Fail> {
    let alloc = rt.alloc();
    let error = ArchiveError::InvalidValue;
    assert_eq!(rt; (error.code(), error.text()), (3, "Invalid value."));
    for (byte, refused) in [(0, false), (1, false), (2, true), (255, true)] {
        let bytes = one_flag(alloc, byte)?;
        assert!(rt; refused_or_least(alloc, &bytes, refused), "{byte}");
    }
    Ok(())
}
