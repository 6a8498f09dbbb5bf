//! Tests over the public calls of keys, nodes and tables.
#![tactic(auto)]

#[cfg(test)]
mod keys;
#[cfg(test)]
mod nodes;
#[cfg(test)]
mod prefixes;
#[cfg(test)]
mod records;
#[cfg(test)]
mod tables;
