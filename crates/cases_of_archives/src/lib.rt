//! Tests over the public calls of archives.
#![tactic(auto)]

#[cfg(test)]
mod changed_bytes;
#[cfg(test)]
mod compacting;
#[cfg(test)]
mod flags;
#[cfg(test)]
mod joint;
#[cfg(test)]
mod live;
#[cfg(test)]
mod questions;
#[cfg(test)]
mod refused;
#[cfg(test)]
mod sets;
#[cfg(test)]
mod walks;
#[cfg(test)]
mod words;
