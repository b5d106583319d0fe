// The board for a host in C or Rust: every call of 01 that changes something, over words and bytes that the host lends and keeps. Nothing that the
// words hold is trusted. Each call is a driver: the gate over the words where they lie, its own refusals, the step on the groups that it touches (of crate
// `steps`, or of the crate that has the group), what changed put back, the answer as a number; load asks no gate and puts every word. The calls that change nothing are a library of their own (`host_looks`), so that the fetch's
// functions have one caller here and are compiled into it. Words and five buffers are lent one by one, as C lends them. Each call asks its gate itself: a
// function that took the rest of a call as a closure would be no shorter. docs/HOST.md has the boundary for a reader.
#![tactic(auto)]

ghost use Rattle.host.specs.Promise.{RefusalsLeaveAll};

pub mod clocks;
pub mod fetches;
pub mod loads;
pub mod ppu_registers;
pub mod ppu_writes;
pub mod reads;
pub mod resets;
pub mod writes;

// No code: its contract holds that a refusal leaves every word and byte.
pub fn promises()
    ensures { RefusalsLeaveAll }
{}
