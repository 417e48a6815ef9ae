//! Whole runs of the programs over memory, and over readers and writers that fail, and exchanges over programmed lines.
//! Expected texts were worked out from the rules, not taken from a run. There is nothing to call: these are tests. They
//! have a crate of their own since a crate that has tests is proved twice.
#![tactic(auto)]

#[cfg(test)]
mod breaks;
#[cfg(test)]
mod checks;
#[cfg(test)]
mod declared;
#[cfg(test)]
mod devices;
#[cfg(test)]
mod edits;
#[cfg(test)]
mod exchange;
#[cfg(test)]
mod frames;
#[cfg(test)]
mod posted_breaks;
#[cfg(test)]
mod posts;
#[cfg(test)]
mod printed;
#[cfg(test)]
mod rows;
#[cfg(test)]
mod runs;
#[cfg(test)]
mod simulated;
#[cfg(test)]
mod values;
#[cfg(test)]
mod views;
#[cfg(test)]
mod wide_lines;
#[cfg(test)]
mod words;
