//! A conductor with its seats, and a master in one thread: what the contracts of `hc_conductor` leave to tests, that all is
//! opened, sent, published, posted and seen with ample memory. The rows were worked out by hand. There is nothing to call:
//! these are tests.
#![tactic(auto)]

#[cfg(test)]
mod at_once;
#[cfg(test)]
mod changer;
#[cfg(test)]
mod docking;
#[cfg(test)]
mod dropped;
#[cfg(test)]
mod fates;
#[cfg(test)]
mod gates;
#[cfg(test)]
mod giving_up;
#[cfg(test)]
mod growths;
#[cfg(test)]
mod joined;
#[cfg(test)]
mod lines;
#[cfg(test)]
mod loops;
#[cfg(test)]
mod often;
#[cfg(test)]
mod one_thread;
#[cfg(test)]
mod over_limit;
#[cfg(test)]
mod posting;
#[cfg(test)]
mod posts;
#[cfg(test)]
mod ready;
#[cfg(test)]
mod rows;
#[cfg(test)]
mod scopes;
#[cfg(test)]
mod steady;
#[cfg(test)]
mod steps;
#[cfg(test)]
mod working;
