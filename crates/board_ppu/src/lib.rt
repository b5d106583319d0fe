// The board as the customer calls it, the PPU's side: fetch, peek, sprite peek and memory write. As in the crate `board`, every function takes
// anything: the gate (refusals 4 and 5), then its own refusals, then the call.
#![tactic(auto)]

ghost use Rattle.board_ppu.specs.Promise.{SpriteSetMapped};

pub mod fetches;
pub mod pages;
pub mod peeks;
pub mod stores;

// No code: its contract holds what is promised of the sprite peek, so that a proof that goes missing fails the check.
pub fn promises()
    ensures { SpriteSetMapped }
{}
