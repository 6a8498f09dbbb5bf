//! The program: it makes, compacts and asks archives of two tables of prefixes.
#![tactic(auto)]

mod archives;
mod build;
mod commands;
mod ending;
mod generate;
mod input;
pub mod laws;
mod questions;
pub mod run;
pub mod status;
mod tables;
#[cfg(test)]
mod tests;

use prefix_io::{StdSink, StdSource};
use run::run;
use std::process::ExitCode;
use std::{env, io};

/// The exit code where the words of the call can't be read.
const NO_WORDS: u8 = 9;

fn main(rt: HostRuntime) -> ExitCode {
    let Ok(words) = words_of(&rt) else {
        return ExitCode::from(NO_WORDS);
    };
    ExitCode::from(run(
        rt.alloc(),
        &words,
        &mut StdSource::new(rt.stdin()),
        &mut StdSink::new(rt.stdout()),
        &mut StdSink::new(rt.stderr()),
    ))
}

// The words after the program's name.
fn words_of(rt: &HostRuntime) -> io::Result<Vec<String>> {
    let mut words = env::args(rt)?;
    words.next();
    Ok(words.collect(rt.alloc())?)
}
