//! Tests over the public calls of families.
#![tactic(auto)]

#[cfg(test)]
mod codecs;
#[cfg(test)]
mod families;
