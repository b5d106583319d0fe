// The CPU's side of the board: reads, peeks and writes over a state whose lengths passed load. 01, modules 3, 4, 5, 6 and 9; in the Rust,
// `prg_read`, `prg_peek` and `write_register`. Each group of the state has a function of its own; crate `steps` puts them together.
#![tactic(auto)]

pub mod chosen;
pub mod groups;
pub mod ppu_registers;
pub mod reads;
pub mod writes;
