//! Tests over the public calls of joint prefixes, maps and sets.
#![tactic(auto)]

#[cfg(test)]
mod items;
#[cfg(test)]
mod joint_changes;
#[cfg(test)]
mod joint_entries;
#[cfg(test)]
mod joint_prefixes;
#[cfg(test)]
mod joint_tables;
