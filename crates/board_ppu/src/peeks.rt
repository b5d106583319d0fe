// PPU peek and sprite peek: neither changes the state.
ghost use Rattle.std.specs.Prelude.{◌≡◌};
ghost use Rattle.memory.specs.Bytes.{mem_of};
ghost use Rattle.board_ppu.specs.Peeks.{ppu_peek, sprite_peek};

use crate::pages;
use answers::Answer;
use memory::{Lent, PpuAddr};
use state::State;
use steps::ppu_side;

#[tactic(auto, unfolding(crate::specs::Peeks::ppu_peek, crate::specs::Peeks::chr_answer))]
pub fn ppu_peek(
    s: State,
    prg: &[u8],
    chr: &[u8],
    ram: &[u8],
    ciram: &[u8],
    exram: &[u8],
    addr: PpuAddr,
) -> Answer
    ensures { result ≡ ppu_peek s (mem_of prg.now chr.now ram.now ciram.now exram.now) addr.0 }
{
    let gate = state::gate::passed(s, prg.len(), chr.len(), ram.len(), ciram.len(), exram.len());
    if let Err(refusal) = gate {
        return Answer::Refused(refusal);
    }
    let lent = Lent {
        prg,
        chr,
        ram,
        ciram,
        exram,
    };
    let table = s.chr_pages;
    let word = pages::chr_word_at(table, addr);
    if scanline::tiles::counted(addr) {
        return ppu_side::counted_answer(s.regs, s.vsplit, s.irq.in_frame, s.ppu, word, lent, addr);
    }
    ppu_side::other_answer(s.regs, s.vsplit, s.irq, s.ppu, word, lent, addr)
}

#[tactic(auto, unfolding(crate::specs::Peeks::sprite_peek))]
pub fn sprite_peek(
    s: State,
    prg: &[u8],
    chr: &[u8],
    ram: &[u8],
    ciram: &[u8],
    exram: &[u8],
    addr: PpuAddr,
) -> Answer
    ensures { result ≡ sprite_peek s (mem_of prg.now chr.now ram.now ciram.now exram.now) addr.0 }
{
    let gate = state::gate::passed(s, prg.len(), chr.len(), ram.len(), ciram.len(), exram.len());
    if let Err(refusal) = gate {
        return Answer::Refused(refusal);
    }
    if !s.ppu.sprite8x16 | (0x2000 <= addr.0) {
        return Answer::Nothing;
    }
    Answer::Served(ppu::served::sprite_byte(s.regs, s.chr_banks, chr, addr))
}
