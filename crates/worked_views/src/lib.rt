//! A publisher and its seats: what the contracts of `hc_publish` leave to tests, that all is opened, published and seen
//! with ample memory. The rows were worked out by hand. The projects are opened by `worked_conductor` too.
#![tactic(auto)]

#[cfg(test)]
mod dropped;
#[cfg(test)]
mod eight;
#[cfg(test)]
mod lines;
#[cfg(test)]
mod often;
pub mod projects;
#[cfg(test)]
mod scopes;
#[cfg(test)]
mod shown;
#[cfg(test)]
mod steady;
#[cfg(test)]
mod turns;
#[cfg(test)]
mod watched;
