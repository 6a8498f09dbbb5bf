ghost use Rattle.std.specs.Prelude.{◌≡◌, ◌%◌, ◌<◌, length};

use prefix_table::{Records, Steps};
use std::alloc::{AllocError, Global};
use std::marker::Brand;
use std::sync::ledger::{Blank, Ledger};
use std::test::Fail;

// Words as bytes.
fn bytes_of(alloc: Global, words: &[u32]) -> Result<Vec<u8>, AllocError> {
    let mut bytes = Vec::new(alloc);
    for word in words {
        bytes.extend_from_slice(&word.to_le_bytes())?;
    }
    Ok(bytes)
}

// The records of no table, of 10.0.0.0/8, and of 0000, 00000 and 0001.
const NONE: &[u32] = &[0, 0, 0, 1];

const ONE_OCTET: &[u32] = &[0, 2, 0, 1, 0x200, 0, 0, 2];

const TWO_NODES: &[u32] = &[0x18000, 1, 0, 1, 1, 0, 2, 2];

// Whether the records are these, four words each, read in so many steps.
fn reads_all<L: Ledger>(bytes: &[u8], words: &[u32], blank: Blank) -> bool
    requires name { blank.name ≡ L.name }
    requires parts { blank.parts ≡ L.parts }
    requires some { 0 < blank.parts }
    requires whole { length bytes.now % 16 ≡ 0 }
{
    let records = Records::new(bytes);
    let mut steps: Steps<L> = Steps::new(blank);
    for i in 0..records.len() {
        let record = records.fetch(i, &mut steps);
        let same = words.get(4 * i) == Some(&record.data_bits)
            && words.get(4 * i + 1) == Some(&record.child_bits)
            && words.get(4 * i + 2) == Some(&record.data_index)
            && words.get(4 * i + 3) == Some(&record.child_index);
        if !same {
            return false;
        }
    }
    records.len() == words.len() / 4
}

#[test]
fn reads_each_record(rt: HostRuntime) -> Result<(), Fail> {
    for words in [NONE, ONE_OCTET, TWO_NODES] {
        let bytes = bytes_of(rt.alloc(), words)?;
        assert!(rt; bytes.len() % 16 == 0);
        assert!(rt; reads_all::<Brand>(&bytes, words, Blank::new(1)));
    }
    Ok(())
}

#[test]
fn has_no_record_in_no_bytes(rt: HostRuntime) {
    assert_eq!(rt; Records::new(&[]).len(), 0);
}
