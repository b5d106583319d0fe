// The CPU write: the bytes, then the groups that the register touches, put back.
ghost use Rattle.std.specs.Prelude.{◌≡◌, true, false};
ghost use Rattle.memory.specs.Bytes.{mem_of};
ghost use Rattle.state.specs.declared.State.{State};
ghost use Rattle.state.specs.Ranges.{in_range};
ghost use Rattle.cpu.specs.Writes.{maps_prg, register_written};
ghost use Rattle.board.specs.CpuSide.{cpu_write};
ghost use Rattle.host_state.specs.Words.{state_of, words_of};
ghost use Rattle.host.specs.Hosted.{left_memory, on_memory};

use answers::{Answer, Refusal};
use host_state::{gate, groups, read, tables};
use memory::CpuAddr;
use steps::register_writes;

// The words after a write to a register that maps PRG pages, and to any other. That the words are in range is a clause, and no ghost field of a struct
// around them: between two groups put back they need not be.
fn write_prg(words: &mut [u16; 144], addr: CpuAddr, val: u8)
    requires { (in_range (state_of words.old) ≡ true) × (maps_prg addr.0 ≡ true) }
    ensures { words.new ≡ words_of (register_written (state_of words.old) addr.0 val) }
{
    let lengths = read::lengths_of(words);
    let regs = read::regs_of(words);
    let banks = read::prg_banks_of(words);
    let pages = tables::prg_table(words);
    let w = register_writes::write_prg(lengths, regs, banks, pages, addr, val);
    groups::put_regs(w.regs, words);
    groups::put_prg_banks(w.banks, words);
    tables::put_prg_table(w.pages, words);
}

fn write_other(words: &mut [u16; 144], addr: CpuAddr, val: u8)
    requires { (in_range (state_of words.old) ≡ true) × (maps_prg addr.0 ≡ false) }
    ensures { words.new ≡ words_of (register_written (state_of words.old) addr.0 val) }
{
    let lengths = read::lengths_of(words);
    let regs = read::regs_of(words);
    let vsplit = read::split_of(words);
    let irq = read::detector_of(words);
    let ppu = read::status_of(words);
    let mirroring = read::mirroring_of(words);
    let banks = read::chr_banks_of(words);
    let pages = tables::chr_table(words);
    let exram = tables::prg_word(words, CpuAddr(0x5C00));
    let w = register_writes::write_other(
        lengths, regs, vsplit, irq, ppu, mirroring, banks, pages, exram, addr, val,
    );
    groups::put_regs(w.regs, words);
    groups::put_split(w.vsplit, words);
    groups::put_detector(w.irq, words);
    groups::put_status(w.ppu, words);
    groups::put_mirroring(w.mirroring, words);
    groups::put_chr_banks(w.banks, words);
    groups::put_exram_word(w.exram, words);
    tables::put_chr_table(w.pages, words);
}

// A CPU write.
pub fn mmc5_cpu_write(
    words: &mut [u16; 144],
    prg: &[u8],
    chr: &mut [u8],
    ram: &mut [u8],
    ciram: &mut [u8],
    exram: &mut [u8],
    addr: u16,
    val: u8,
) -> u32
    ensures { left_memory result words.new (mem_of prg.now chr.new ram.new ciram.new exram.new)
        ≡ on_memory words.old (mem_of prg.now chr.old ram.old ciram.old exram.old) (λ (s : State). cpu_write s (mem_of prg.now chr.old ram.old ciram.old exram.old) addr val) }
{
    let gate = gate::passed(
        words,
        prg.len(),
        chr.len(),
        ram.len(),
        ciram.len(),
        exram.len(),
    );
    if let Err(refusal) = gate {
        return host_answers::plain(Answer::Refused(refusal));
    }
    let at = CpuAddr(addr);
    if cpu::writes::audio_write(at) {
        return host_answers::plain(Answer::Refused(Refusal::Audio));
    }
    let regs = read::regs_of(words);
    let ppu = read::status_of(words);
    let word = tables::prg_word(words, at);
    // First the bytes: no register maps the page that registers are written at.
    steps::cpu_side::store(
        chr,
        ram,
        ciram,
        exram,
        regs.exram_mode,
        ppu.rendering,
        word,
        at,
        val,
    );
    if cpu::groups::is_within(0x5100, 0x5206, at) {
        if cpu::writes::maps_prg(at) {
            write_prg(words, at, val);
        } else {
            write_other(words, at, val);
        }
    }
    let irq = read::detector_of(words);
    host_answers::with_interrupt(Answer::Nothing, irq)
}
