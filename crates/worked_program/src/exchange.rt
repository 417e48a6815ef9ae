//! Exchanges over programmed lines and wires: rows that were worked out by hand, tasks that are exchanged while a tool is not
//! written yet, and exchanges after drawn edits.
#[cfg(test)]
mod drawn;
#[cfg(test)]
mod machines;
#[cfg(test)]
mod model;
#[cfg(test)]
mod ready;
#[cfg(test)]
mod rows;
