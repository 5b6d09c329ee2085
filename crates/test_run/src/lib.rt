//! Tests of sessions that run side by side: gates that hold threads at chosen places show that they do.
#![tactic(auto)]

#[cfg(test)]
mod gates;
#[cfg(test)]
mod hashes;
#[cfg(test)]
mod runs;
