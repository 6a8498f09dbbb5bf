//! Tests over the public calls of maps and sets of one family.
#![tactic(auto)]

#[cfg(test)]
mod maps;
#[cfg(test)]
mod refused_copies;
