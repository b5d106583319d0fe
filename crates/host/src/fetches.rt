// The PPU fetch: only what it can change of the groups is put back, and the CHR table where it is mapped anew.
ghost use Rattle.std.specs.Prelude.{◌≡◌, true};
ghost use Rattle.memory.specs.Bytes.{mem_of};
ghost use Rattle.state.specs.declared.State.{State};
ghost use Rattle.state.specs.Ranges.{in_range};
ghost use Rattle.state.specs.With.{with_chr_pages};
ghost use Rattle.board_ppu.specs.Fetch.{pattern_pages, ppu_fetch};
ghost use Rattle.host_state.specs.Words.{state_of, words_of};
ghost use Rattle.host.specs.Hosted.{left_words, on_words};

use answers::{Answer, Refusal};
use host_state::{gate, groups, read, tables};
use memory::{Lent, PpuAddr};
use steps::ppu_side;

// "mapping only on a change": the table is read and put back only then; the step of crate `steps` takes it whole.
fn map_on_change(before: bool, after: bool, words: &mut [u16; 144])
    requires { (in_range (state_of words.old) ≡ true) × (before ≡ (state_of words.old).ppu.bg_set) }
    ensures { words.new ≡ words_of (with_chr_pages (state_of words.old) (pattern_pages (state_of words.old) after)) }
{
    if !cpu::chosen::set_changed(before, after) {
        return;
    }
    let lengths = read::lengths_of(words);
    let regs = read::regs_of(words);
    let banks = read::chr_banks_of(words);
    let shown = tables::chr_table(words);
    let mapped = banks::chr::map_chr(lengths, regs, banks, after, shown);
    tables::put_chr_table(mapped, words);
}

// A PPU fetch.
pub fn mmc5_ppu_fetch(
    words: &mut [u16; 144],
    prg: &[u8],
    chr: &[u8],
    ram: &[u8],
    ciram: &[u8],
    exram: &[u8],
    addr: u16,
) -> u32
    ensures { left_words result words.new ≡ on_words words.old (λ (s : State). ppu_fetch s (mem_of prg.now chr.now ram.now ciram.now exram.now) addr) }
{
    let gate = gate::passed(
        words,
        prg.len(),
        chr.len(),
        ram.len(),
        ciram.len(),
        exram.len(),
    );
    if let Err(refusal) = gate {
        return host_answers::plain(Answer::Refused(refusal));
    }
    let lent = Lent {
        prg,
        chr,
        ram,
        ciram,
        exram,
    };
    let at = PpuAddr(addr);
    let irq = read::detector_of(words);
    let ppu = read::status_of(words);
    let regs = read::regs_of(words);
    let vsplit = read::split_of(words);
    if scanline::tiles::counted(at) {
        if scanline::counter_refused(irq, at) {
            return host_answers::plain(Answer::Refused(Refusal::Counter));
        }
        let counted = ppu_side::count_fetch(regs, irq, ppu, vsplit, at);
        let word = tables::chr_word(words, at);
        let answer = ppu_side::counted_answer(
            regs,
            counted.vsplit,
            counted.irq.in_frame,
            counted.ppu,
            word,
            lent,
            at,
        );
        groups::put_detector(counted.irq, words);
        groups::put_tiles(counted.ppu, words);
        groups::put_region(counted.vsplit, words);
        return host_answers::with_interrupt(answer, counted.irq);
    }
    let chosen = ppu_side::chosen_at(ppu, irq.in_frame, at);
    map_on_change(ppu.bg_set, chosen.bg_set, words);
    let word = tables::chr_word(words, at);
    groups::put_set(chosen, words);
    let answer = ppu_side::other_answer(regs, vsplit, irq, chosen, word, lent, at);
    host_answers::with_interrupt(answer, irq)
}
