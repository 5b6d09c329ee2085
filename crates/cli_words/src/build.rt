// How the program was made. A trial program is compiled from a copy of the sources that says `trial` and its level here.

/// Whether the program was built of proved crates.
pub const BUILD: &str = "proved";
