// The PPU's side of the board: what fetches and peeks are served, and what a fetch leaves. 01, modules 5 to 8; in the Rust, `chr_read`,
// `chr_peek`, `chr_peek_spr` and the functions that they call. Small groups by value: every PPU fetch goes through here.
#![tactic(auto)]

pub mod fetches;
pub mod served;
