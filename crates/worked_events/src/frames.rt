//! Runs of bits and frames, in rows that were worked out by hand.
#[cfg(test)]
mod bits;
#[cfg(test)]
mod building;
#[cfg(test)]
mod reading;
