//! A master in one thread: what the contracts of `hc_conductor::one_thread` leave to tests, that all is opened, written,
//! sent, posted, taken, published and viewed with ample memory.
#[cfg(test)]
mod growths;
#[cfg(test)]
mod lines;
#[cfg(test)]
mod over_limit;
#[cfg(test)]
mod posts;
#[cfg(test)]
mod rows;
#[cfg(test)]
mod steps;
