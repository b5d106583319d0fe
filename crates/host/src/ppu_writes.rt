// The PPU memory write: no word changes.
ghost use Rattle.std.specs.Prelude.{◌≡◌};
ghost use Rattle.memory.specs.Bytes.{mem_of};
ghost use Rattle.state.specs.declared.State.{State};
ghost use Rattle.board_ppu.specs.Peeks.{ppu_write};
ghost use Rattle.host.specs.Hosted.{left_memory, on_memory};

use answers::Answer;
use host_state::{gate, read, tables};
use memory::PpuAddr;

// A PPU memory write.
pub fn mmc5_ppu_write(
    words: &mut [u16; 144],
    prg: &[u8],
    chr: &mut [u8],
    ram: &mut [u8],
    ciram: &mut [u8],
    exram: &mut [u8],
    addr: u16,
    val: u8,
) -> u32
    ensures { left_memory result words.new (mem_of prg.now chr.new ram.new ciram.new exram.new)
        ≡ on_memory words.old (mem_of prg.now chr.old ram.old ciram.old exram.old) (λ (s : State). ppu_write s (mem_of prg.now chr.old ram.old ciram.old exram.old) addr val) }
{
    let gate = gate::passed(
        words,
        prg.len(),
        chr.len(),
        ram.len(),
        ciram.len(),
        exram.len(),
    );
    if let Err(refusal) = gate {
        return host_answers::plain(Answer::Refused(refusal));
    }
    let at = PpuAddr(addr);
    let irq = read::detector_of(words);
    let word = tables::chr_word(words, at);
    memory::bytes::store(chr, ram, ciram, exram, word, at.0 % 1024, val);
    host_answers::with_interrupt(Answer::Nothing, irq)
}
