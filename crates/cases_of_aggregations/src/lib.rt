//! Tests over the public calls of aggregations and of the bits of a node.
#![tactic(auto)]

#[cfg(test)]
mod aggregations;
#[cfg(test)]
mod node_bits;
