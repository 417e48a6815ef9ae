//! A value for a variable, as a task posts it. The command `post` has such values, and the conductor writes each to its
//! variable's place.

/// A value for the output variable with a number.
#[derive(Clone, Copy, Debug, PartialEq, Eq)]
pub struct Setting {
    /// The variable's number; 0 is no variable's.
    pub variable: u32,
    /// Its value.
    pub value: u64,
}
