ghost use Rattle.std.specs.Prelude.{◌+◌, ◌<◌, ◌≤◌};

use prefix_table::{
    BitIter, PrefixBits, child_bit, child_cover_mask, child_cover_mask_for_bit, data_bit,
    data_cover_mask, data_lpm_mask, extend_repr, lex_after_child, lex_after_data,
    reconstruct_prefix,
};
use std::process::Abort;

// The prefix 00001010 of eight bits stands in the node of its first five.
const OCTET: u32 = 0x0a00_0000;

// A position of 120 bits.
const SITE: u128 = 0x2001_0db8_0001_0000_0000_0000_0000_ab00;

// The bits that the key of each place, and of each slot, has behind the node's.
const PLACES: [&str; 31] = [
    "", "0", "1", "00", "01", "10", "11", "000", "001", "010", "011", "100", "101", "110", "111",
    "0000", "0001", "0010", "0011", "0100", "0101", "0110", "0111", "1000", "1001", "1010", "1011",
    "1100", "1101", "1110", "1111",
];

const SLOTS: [&str; 32] = [
    "00000", "00001", "00010", "00011", "00100", "00101", "00110", "00111", "01000", "01001",
    "01010", "01011", "01100", "01101", "01110", "01111", "10000", "10001", "10010", "10011",
    "10100", "10101", "10110", "10111", "11000", "11001", "11010", "11011", "11100", "11101",
    "11110", "11111",
];

/// The node's five bits, 00001, then these, then zeros.
fn below(rt: &impl Abort, bits: &str) -> u32 {
    let mut key = 0x0800_0000_u32;
    let mut at = 5_u32;
    for byte in bits.bytes() {
        assert!(rt; at < 32);
        if byte == b'1' {
            key |= 0x8000_0000 >> at;
        }
        at += 1;
    }
    key
}

/// The numbers of the texts that stand in a relation to this one, as a mask.
fn mask_of(rt: &impl Abort, texts: &[&str], text: &str, relation: Relation) -> u32 {
    let mut mask = 0;
    let mut number = 0_u32;
    for other in texts {
        assert!(rt; number < 32);
        let stands = match relation {
            Relation::Begins => text.starts_with(*other),
            Relation::Extends => other.starts_with(text),
            Relation::From => *other >= text,
            Relation::Past => *other > text && !other.starts_with(text),
        };
        if stands {
            mask |= 1 << number;
        }
        number += 1;
    }
    mask
}

/// How a key stands to another one.
#[derive(Clone, Copy)]
enum Relation {
    Begins,
    Extends,
    From,
    Past,
}

#[test]
fn places_follow_their_keys(rt: HostRuntime) {
    for bit in 0_u32..31 {
        let place = PLACES[bit as usize];
        let count = place.len();
        assert!(rt; count < 5);
        let len = 5 + count as u32;
        let key = below(&rt, place);
        let covers = mask_of(&rt, &PLACES, place, Relation::Extends);
        let child_covers = mask_of(&rt, &SLOTS, place, Relation::Extends);
        let from = mask_of(&rt, &PLACES, place, Relation::From);
        let children_from = mask_of(&rt, &SLOTS, place, Relation::From);
        let prefixes = mask_of(&rt, &PLACES, place, Relation::Begins);
        assert_eq!(rt; data_bit(key, len), bit);
        assert_eq!(rt; data_lpm_mask(5, key, len), prefixes, "at {bit}");
        assert_eq!(rt; data_cover_mask(5, key, len), covers, "at {bit}");
        assert_eq!(rt; child_cover_mask(5, key, len), child_covers, "at {bit}");
        assert_eq!(rt; child_cover_mask_for_bit(bit), child_covers, "at {bit}");
        assert_eq!(rt; lex_after_data(bit), (from, children_from), "at {bit}");
    }
}

#[test]
fn slots_follow_their_keys(rt: HostRuntime) {
    for slot in 0_u32..32 {
        let bits = SLOTS[slot as usize];
        let key = below(&rt, bits);
        let past = mask_of(&rt, &PLACES, bits, Relation::Past);
        let children_past = mask_of(&rt, &SLOTS, bits, Relation::Past);
        let prefixes = mask_of(&rt, &PLACES, bits, Relation::Begins);
        assert_eq!(rt; child_bit(5, key), slot);
        assert_eq!(rt; extend_repr(OCTET, 5, slot), key);
        assert_eq!(rt; data_lpm_mask(5, key, 10), prefixes, "at {slot}");
        assert_eq!(rt; lex_after_child(slot), (past, children_past), "at {slot}");
    }
}

/// The prefix of a place of a node that ends four bits before the width, or sooner.
fn prefix_of_place<P: PrefixBits>(key: P::R, depth: u32, bit: u32) -> P
    requires depth { depth + 4 ≤ P.R.WIDTH }
    requires bit { bit < 31 }
{
    reconstruct_prefix(key, depth, bit)
}

#[test]
fn reconstructs_each_place(rt: HostRuntime) {
    for bit in 0_u32..31 {
        let place = PLACES[bit as usize];
        let count = place.len();
        assert!(rt; count < 5);
        let key = below(&rt, place);
        let short: (u32, u8) = prefix_of_place(OCTET | 0xffff, 5, bit);
        assert_eq!(rt; short, (key, 5 + count as u8), "at {bit}");
        let long: (u128, u8) = prefix_of_place(SITE | 0xff, 120, bit);
        let ends = u128::from((key << 5) >> 24);
        assert_eq!(rt; long, (SITE | ends, 120 + count as u8), "at {bit}");
    }
}

#[test]
fn goes_over_set_bits(rt: HostRuntime) {
    let mut bits = BitIter::new(1 << 3 | 1 << 8 | 1 << 31);
    assert_eq!(rt; bits.next(), Some(3));
    assert_eq!(rt; bits.next_back(), Some(31));
    assert_eq!(rt; bits.next(), Some(8));
    assert_eq!(rt; bits.next_back(), None);
    assert_eq!(rt; bits.next(), None);
}
