//! The crates below the plan, each by itself, in rows that were worked out by hand, and along drawn edits.
#[cfg(test)]
mod cuts;
#[cfg(test)]
mod growing;
#[cfg(test)]
mod project_texts;
#[cfg(test)]
mod projects;
#[cfg(test)]
mod registers;
#[cfg(test)]
mod repairs;
#[cfg(test)]
mod trees;
