//! Tests over the public calls of views of live maps and sets.
#![tactic(auto)]

#[cfg(test)]
mod comparing;
#[cfg(test)]
mod finding;
#[cfg(test)]
mod routes;
#[cfg(test)]
mod walking;
