// Looks for a host in C or Rust: the calls that change nothing of what the host lends but the bytes that a page is copied to. For a peek
// and a page copy the words are read as a state, and the board answers on it by value; an entry, the mirroring and the interrupt are read where they lie. Nothing that
// the words hold is trusted. A library of its own, so that in it and in `host` the board's large functions have one caller and are compiled into it. docs/HOST.md has the boundary for a reader.
#![tactic(auto)]

pub mod pages;
pub mod peeks;
pub mod questions;
