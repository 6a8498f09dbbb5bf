use crate::command::parse_command;
use crate::forms::EitherPrefix;
use crate::generator::Generator;
use crate::lines::{first_bad_line, parse_entry, split_line};
use crate::text::{Counts, Sizes, push_aggregate, push_check, push_entry, push_found, push_sizes};
use either::{Left, Right};
use std::alloc::{AllocError, Global};

const TEXT: &[u8] = b"4 00000000 0 1\n4 0a010000 21 2\n6 20010db8000000000000000000000000 32 3\n";

// The entries of the lines, printed again.
fn printed(alloc: Global, text: &[u8]) -> Result<Vec<u8>, AllocError> {
    let mut printed = Vec::new(alloc);
    let mut rest = text;
    while let Some((line, more)) = split_line(rest) {
        if let Some(entry) = parse_entry(line) {
            push_entry(&mut printed, entry)?;
        }
        rest = more;
    }
    Ok(printed)
}

#[test]
fn lines_are_printed_as_they_were(rt: HostRuntime) -> Result<(), AllocError> {
    let text = printed(rt.alloc(), TEXT)?;
    assert_eq!(rt; text.as_slice(), TEXT);
    assert_eq!(rt; first_bad_line(TEXT), None);
    Ok(())
}

#[test]
fn the_first_bad_line_is_told(rt: HostRuntime) {
    assert_eq!(rt; first_bad_line(b""), None);
    assert_eq!(rt; first_bad_line(b"\n"), Some(1));
    assert_eq!(rt; first_bad_line(b"4 00000000 0 1\n\n"), Some(2));
    assert_eq!(rt; first_bad_line(b"4 00000000 0 1\n4 00000000 0 01"), Some(2));
}

#[test]
fn counts_and_sizes_are_printed(rt: HostRuntime) -> Result<(), AllocError> {
    let mut text = Vec::new(rt.alloc());
    let first = Counts {
        nodes: 2,
        entries: 1,
        addresses: Some(16777216),
    };
    let second = Counts {
        nodes: 10,
        entries: 3,
        addresses: None,
    };
    push_check(&mut text, first, second)?;
    push_found(&mut text, None)?;
    push_aggregate(&mut text, true)?;
    let sizes = Sizes {
        first_before: 1,
        second_before: 0,
        first_after: 1,
        second_after: 0,
        bytes_before: 68,
        bytes_after: 68,
    };
    push_sizes(&mut text, sizes)?;
    let wanted =
        b"4 nodes 2 entries 1 addresses 16777216\n6 nodes 10 entries 3 addresses all\nnone\naggregate yes\nin 1 0 out 1 0 bytes 68 68\n";
    assert_eq!(rt; text.as_slice(), wanted.as_slice());
    Ok(())
}

// How many entries of a seed are of the first family, and of the second.
fn families(seed: u64, count: u32) -> (u32, u32) {
    let mut generator = Generator::new(seed);
    let mut first = 0u32;
    let mut second = 0u32;
    for _ in 0..count {
        let prefix: EitherPrefix = generator.next_entry().0;
        match prefix {
            Left(_) => first = first.wrapping_add(1),
            Right(_) => second = second.wrapping_add(1),
        }
    }
    (first, second)
}

#[test]
fn a_seed_gives_both_families(rt: HostRuntime) {
    let mut generator = Generator::new(2);
    assert_eq!(rt;
        generator.next_entry(),
        (Right((0xeac8_1f55_b0ff_4b10_5d50_90b0_350f_a08f, 38)), 6)
    );
    assert_eq!(rt; families(7, 100_000), (50_148, 49_852));
}

#[test]
fn words_give_commands(rt: HostRuntime) -> Result<(), AllocError> {
    let mut words = Vec::new(rt.alloc());
    words.push(String::from_str(rt.alloc(), "dump")?)?;
    assert!(rt; parse_command(&words).is_some());
    words.push(String::from_str(rt.alloc(), "x")?)?;
    assert!(rt; parse_command(&words).is_none());
    Ok(())
}
