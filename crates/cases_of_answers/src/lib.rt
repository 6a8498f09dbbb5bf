//! Tests of live tables and their archives beside one another.
#![tactic(auto)]

#[cfg(test)]
mod compared;
#[cfg(test)]
mod kept;
