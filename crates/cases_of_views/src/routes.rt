//! Prefixes that several tests share, and what they ask of a view.
use prefix_view::{TrieRef, TrieView};
use std::process::Abort;

pub(crate) type Route = (u32, u8);

pub(crate) type Routes<'a> = TrieRef<'a, Route, u32>;

pub(crate) const TEN: Route = (0x0a00_0000, 8);

pub(crate) const TEN_ONE: Route = (0x0a01_0000, 16);

pub(crate) const TEN_TWO: Route = (0x0a02_0000, 16);

pub(crate) const ELEVEN: Route = (0x0b00_0000, 8);

/// The view is there, and this value stands at this place.
pub(crate) fn stands_at<'a>(rt: &impl Abort, at: Option<Routes<'a>>, place: Route, value: u32) {
    match at {
        Some(view) => match view.prefix_value() {
            Some((prefix, found)) => {
                assert_eq!(rt; prefix, place);
                assert_eq!(rt; *found, value);
            }
            None => panic!(rt; "no value"),
        },
        None => panic!(rt; "no view"),
    }
}
