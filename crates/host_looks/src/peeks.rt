// The peeks, over lent words.
#![tactic(auto, unfolding(crate::specs::Looks::look_on))]

ghost use Rattle.std.specs.Prelude.{◌≡◌};
ghost use Rattle.state.specs.declared.State.{State};
ghost use Rattle.memory.specs.Bytes.{mem_of};
ghost use Rattle.board.specs.CpuSide.{cpu_peek};
ghost use Rattle.board_ppu.specs.Peeks.{ppu_peek, sprite_peek};
ghost use Rattle.host_answers.specs.Answers.{answer_plain};
ghost use Rattle.host_looks.specs.Looks.{look_on};

use host_state::whole_state;
use memory::{CpuAddr, PpuAddr};

// A CPU peek. The peeks are three, and no function that takes the board's call as a closure: each is its call between two others, and a closure would be as long.
pub fn mmc5_cpu_peek(
    words: &[u16; 144],
    prg: &[u8],
    chr: &[u8],
    ram: &[u8],
    ciram: &[u8],
    exram: &[u8],
    addr: u16,
) -> u32
    ensures { result ≡ look_on words.now answer_plain (λ (s : State). cpu_peek s (mem_of prg.now chr.now ram.now ciram.now exram.now) addr) }
{
    let s = whole_state::state_of(words);
    let answer = board::cpu_side::cpu_peek(s, prg, chr, ram, ciram, exram, CpuAddr(addr));
    host_answers::plain(answer)
}

// A PPU peek.
pub fn mmc5_ppu_peek(
    words: &[u16; 144],
    prg: &[u8],
    chr: &[u8],
    ram: &[u8],
    ciram: &[u8],
    exram: &[u8],
    addr: u16,
) -> u32
    ensures { result ≡ look_on words.now answer_plain (λ (s : State). ppu_peek s (mem_of prg.now chr.now ram.now ciram.now exram.now) addr) }
{
    let s = whole_state::state_of(words);
    let answer = board_ppu::peeks::ppu_peek(s, prg, chr, ram, ciram, exram, PpuAddr(addr));
    host_answers::plain(answer)
}

// A sprite peek.
pub fn mmc5_sprite_peek(
    words: &[u16; 144],
    prg: &[u8],
    chr: &[u8],
    ram: &[u8],
    ciram: &[u8],
    exram: &[u8],
    addr: u16,
) -> u32
    ensures { result ≡ look_on words.now answer_plain (λ (s : State). sprite_peek s (mem_of prg.now chr.now ram.now ciram.now exram.now) addr) }
{
    let s = whole_state::state_of(words);
    let answer = board_ppu::peeks::sprite_peek(s, prg, chr, ram, ciram, exram, PpuAddr(addr));
    host_answers::plain(answer)
}
