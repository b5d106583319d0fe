// PPU memory write: a byte stored through the page.
ghost use Rattle.std.specs.Prelude.{◌≡◌};
ghost use Rattle.memory.specs.Bytes.{mem_of};
ghost use Rattle.board.specs.Outcomes.{after_of};
ghost use Rattle.board_ppu.specs.Peeks.{ppu_write};

use crate::pages;
use answers::Answer;
use board::Outcome;
use memory::PpuAddr;
use state::State;

#[tactic(auto, unfolding(crate::specs::Peeks::ppu_write))]
pub fn ppu_write(
    s: State,
    prg: &[u8],
    chr: &mut [u8],
    ram: &mut [u8],
    ciram: &mut [u8],
    exram: &mut [u8],
    addr: PpuAddr,
    val: u8,
) -> Outcome
    ensures { after_of result (mem_of prg.now chr.new ram.new ciram.new exram.new)
        ≡ ppu_write s (mem_of prg.now chr.old ram.old ciram.old exram.old) addr.0 val }
{
    let gate = state::gate::passed(s, prg.len(), chr.len(), ram.len(), ciram.len(), exram.len());
    if let Err(refusal) = gate {
        return board::refuse(s, refusal);
    }
    let word = pages::chr_word_at(s.chr_pages, addr);
    memory::bytes::store(chr, ram, ciram, exram, word, addr.0 % 1024, val);
    Outcome {
        answer: Answer::Nothing,
        state: s,
    }
}
