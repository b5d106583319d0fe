// What each single call does behind an open gate, over the groups of the state that it touches: for the board's calls by value and for the host's over
// lent words. Each of these is a driver: gate, step, what changed put back, answer. The loop of replay has arms of its own over the same small
// functions. The clock, reset, a PPU register write and a PPU memory write are functions of the crate that has the group.
// Each takes the groups that it touches (`regs`, `vsplit`, `irq`, the banks ..), and no struct of them all: with the whole state read and put back a fetch took
// 148 to 182 ns, with its groups alone 40 to 43 (docs/SPEED.md).
#![tactic(auto)]

pub mod cpu_side;
pub mod ppu_side;
pub mod register_writes;
