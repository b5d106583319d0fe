// A PPU fetch.
ghost use Rattle.std.specs.Prelude.{◌≡◌};
ghost use Rattle.memory.specs.Bytes.{mem_of};
ghost use Rattle.board_ppu.specs.Fetch.{ppu_fetch};

use crate::pages;
use answers::Refusal;
use board::Outcome;
use memory::{Lent, PpuAddr};
use state::State;
use steps::ppu_side;

#[tactic(auto, unfolding(crate::specs::Fetch::ppu_fetch))]
pub fn ppu_fetch(
    s: State,
    prg: &[u8],
    chr: &[u8],
    ram: &[u8],
    ciram: &[u8],
    exram: &[u8],
    addr: PpuAddr,
) -> Outcome
    ensures { result ≡ ppu_fetch s (mem_of prg.now chr.now ram.now ciram.now exram.now) addr.0 }
{
    let gate = state::gate::passed(s, prg.len(), chr.len(), ram.len(), ciram.len(), exram.len());
    if let Err(refusal) = gate {
        return board::refuse(s, refusal);
    }
    if scanline::counter_refused(s.irq, addr) {
        return board::refuse(s, Refusal::Counter);
    }
    let lent = Lent {
        prg,
        chr,
        ram,
        ciram,
        exram,
    };
    let regs = s.regs;
    let table = s.chr_pages;
    if scanline::tiles::counted(addr) {
        let after = ppu_side::count_fetch(regs, s.irq, s.ppu, s.vsplit, addr);
        let irq = after.irq;
        let status = after.ppu;
        let vsplit = after.vsplit;
        let word = pages::chr_word_at(table, addr);
        let answer = ppu_side::counted_answer(regs, vsplit, irq.in_frame, status, word, lent, addr);
        return Outcome {
            answer,
            state: State {
                irq,
                ppu: status,
                vsplit,
                ..s
            },
        };
    }
    let status = ppu_side::chosen_at(s.ppu, s.irq.in_frame, addr);
    let banks = s.chr_banks;
    let mapped = ppu_side::map_on_change(
        s.lengths,
        regs,
        banks,
        s.ppu.bg_set,
        status.bg_set,
        table,
    );
    let word = pages::chr_word_at(mapped, addr);
    let answer = ppu_side::other_answer(regs, s.vsplit, s.irq, status, word, lent, addr);
    Outcome {
        answer,
        state: State {
            ppu: status,
            chr_pages: mapped,
            ..s
        },
    }
}
