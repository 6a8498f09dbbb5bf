//! Where bytes come from and go to: the traits, forms in memory, and forms over the standard streams.
#![tactic(auto)]

mod memory;
mod standard;
mod streams;
#[cfg(test)]
mod tests;

pub use memory::{MemorySink, MemorySource, SinkFail};
pub use standard::{StdSink, StdSource};
pub use streams::{Failed, Sink, Source};
