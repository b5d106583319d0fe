// The records of a trace, played over a state in range and buffers of its lengths. 01 names the form: a loop over records that yields by break. It holds the state; each arm works on the groups that
// its call touches, puts them back and goes on: no call is handed the whole state. A read and a fetch that does not count write the fields that they can
// change: a group written whole is read in wider pieces than a clock or a fetch wrote its fields in, which a processor waits for (docs/SPEED.md).
ghost use Rattle.std.specs.Prelude.{◌≡◌, ◌≤◌, length};
ghost use Rattle.memory.specs.Bytes.{mem_of};
ghost use Rattle.state.specs.Gate.{Open, gate_mem};
ghost use Rattle.player.specs.Replay.{left_of, played};

use crate::{Replayed, Stopped};
use answers::{Answer, Refusal};
use memory::Lent;
use state::{Screen, State};
use steps::{cpu_side, ppu_side};
use trace::Call;

pub fn play(
    s: State,
    trace: &[u8],
    prg: &[u8],
    chr: &mut [u8],
    ram: &mut [u8],
    ciram: &mut [u8],
    exram: &mut [u8],
    log: &mut [u8],
) -> Replayed
    requires { (length trace.now ≤ 8192) × (gate_mem s (mem_of prg.now chr.old ram.old ciram.old exram.old) ≡ Open) }
    ensures { left_of result (mem_of prg.now chr.new ram.new ciram.new exram.new) log.new
        ≡ played s trace.now (mem_of prg.now chr.old ram.old ciram.old exram.old) log.old }
{
    let mut t = s;
    let mut at: usize = 0;
    let mut count: usize = 0;
    let ending = loop {
        let (call, next) = match trace::records::record_at(trace, at) {
            Ok(Some(record)) => record,
            Ok(None) => break Ok(count),
            Err(refusal) => break Err(Stopped { place: at, refusal }),
        };
        match call {
            Call::Clock => {
                let irq = scanline::clock(t.irq);
                t.irq = irq;
                logs::log_record(log, count, Answer::Nothing, irq);
                count += 1;
                at = next;
                continue;
            }
            Call::CpuRead(addr) => {
                if cpu::reads::audio_read(addr) {
                    break Err(Stopped {
                        place: at,
                        refusal: Refusal::Audio,
                    });
                }
                let k = (addr.0 / 1024) as usize;
                let word = t.prg_pages[k];
                let prg_banks = t.prg_banks;
                let chr_banks = t.chr_banks;
                let lent = Lent {
                    prg,
                    chr,
                    ram,
                    ciram,
                    exram,
                };
                let answer = cpu_side::read(
                    t.regs, t.vsplit, t.irq, prg_banks, chr_banks, word, lent, addr,
                );
                let irq = cpu::reads::irq_read(t.irq, addr);
                let prev_some = irq.prev_some;
                let in_frame = irq.in_frame;
                let pending = irq.pending;
                t.irq.prev_some = prev_some;
                t.irq.in_frame = in_frame;
                t.irq.pending = pending;
                logs::log_record(log, count, answer, t.irq);
                count += 1;
                at = next;
                continue;
            }
            Call::CpuWrite(addr, val) => {
                if cpu::writes::audio_write(addr) {
                    break Err(Stopped {
                        place: at,
                        refusal: Refusal::Audio,
                    });
                }
                let k = (addr.0 / 1024) as usize;
                let word = t.prg_pages[k];
                let mode = t.regs.exram_mode;
                let rendering = t.ppu.rendering;
                // First the bytes: no register maps the page that registers are written at.
                cpu_side::store(chr, ram, ciram, exram, mode, rendering, word, addr, val);
                if !cpu::groups::is_within(0x5100, 0x5206, addr) {
                    logs::log_record(log, count, Answer::Nothing, t.irq);
                    count += 1;
                    at = next;
                    continue;
                }
                let lengths = t.lengths;
                let regs = registers::write(t.regs, addr, val);
                t.regs = regs;
                if cpu::writes::maps_prg(addr) {
                    let old_banks = t.prg_banks;
                    let banks = cpu::groups::prg_banks_after(old_banks, addr, val);
                    let old_pages = t.prg_pages;
                    let pages = banks::prg::map_prg(lengths, regs, banks, old_pages);
                    t.prg_banks = banks;
                    t.prg_pages = pages;
                    logs::log_record(log, count, Answer::Nothing, t.irq);
                    count += 1;
                    at = next;
                    continue;
                }
                let ppu = cpu::chosen::ppu_after(t.ppu, t.irq.in_frame, addr);
                let vsplit = cpu::groups::split_after(t.vsplit, addr, val);
                let irq = cpu::groups::irq_after(t.irq, addr, val);
                let old_screen = t.screen;
                let old_mirroring = old_screen.mirroring;
                let mirroring = registers::mirroring_after(old_mirroring, addr, val);
                let screen = Screen { mirroring };
                let old_banks = t.chr_banks;
                let banks = cpu::groups::chr_banks_after(old_banks, addr, val);
                let old_pages = t.chr_pages;
                let pages = cpu::writes::chr_pages_after(
                    lengths, regs, banks, ppu.bg_set, old_pages, addr,
                );
                let at_5c00 = cpu_side::exram_word(t.prg_pages[23], regs.exram_mode, addr);
                t.vsplit = vsplit;
                t.irq = irq;
                t.ppu = ppu;
                t.screen = screen;
                t.chr_banks = banks;
                t.chr_pages = pages;
                t.prg_pages[23] = at_5c00;
                logs::log_record(log, count, Answer::Nothing, irq);
                count += 1;
                at = next;
                continue;
            }
            Call::PpuRegister(addr, val) => {
                let ppu = cpu::ppu_registers::status_after(t.ppu, addr, val);
                let irq = cpu::ppu_registers::detector_after(t.irq, addr, val);
                t.ppu = ppu;
                t.irq = irq;
                logs::log_record(log, count, Answer::Nothing, irq);
                count += 1;
                at = next;
                continue;
            }
            Call::PpuFetch(addr) => {
                let k = (addr.0 / 1024 % 16) as usize;
                let lent = Lent {
                    prg,
                    chr,
                    ram,
                    ciram,
                    exram,
                };
                if scanline::tiles::counted(addr) {
                    if scanline::counter_refused(t.irq, addr) {
                        break Err(Stopped {
                            place: at,
                            refusal: Refusal::Counter,
                        });
                    }
                    let groups = ppu_side::count_fetch(t.regs, t.irq, t.ppu, t.vsplit, addr);
                    let irq = groups.irq;
                    let ppu = groups.ppu;
                    let vsplit = groups.vsplit;
                    t.irq = irq;
                    t.ppu = ppu;
                    t.vsplit = vsplit;
                    let word = t.chr_pages[k];
                    let answer = ppu_side::counted_answer(
                        t.regs,
                        vsplit,
                        irq.in_frame,
                        ppu,
                        word,
                        lent,
                        addr,
                    );
                    logs::log_record(log, count, answer, irq);
                    count += 1;
                    at = next;
                    continue;
                }
                let ppu = ppu_side::chosen_at(t.ppu, t.irq.in_frame, addr);
                if cpu::chosen::set_changed(t.ppu.bg_set, ppu.bg_set) {
                    let lengths = t.lengths;
                    let banks = t.chr_banks;
                    let old_pages = t.chr_pages;
                    let pages = banks::chr::map_chr(lengths, t.regs, banks, ppu.bg_set, old_pages);
                    t.chr_pages = pages;
                }
                let bg_set = ppu.bg_set;
                let bg_written = ppu.bg_written;
                t.ppu.bg_set = bg_set;
                t.ppu.bg_written = bg_written;
                let word = t.chr_pages[k];
                let answer = ppu_side::other_answer(t.regs, t.vsplit, t.irq, ppu, word, lent, addr);
                logs::log_record(log, count, answer, t.irq);
                count += 1;
                at = next;
                continue;
            }
            Call::Reset => {
                let regs = registers::reset(t.regs);
                t.regs = regs;
                logs::log_record(log, count, Answer::Nothing, t.irq);
                count += 1;
                at = next;
                continue;
            }
            Call::PpuWrite(addr, val) => {
                let k = (addr.0 / 1024 % 16) as usize;
                let word = t.chr_pages[k];
                memory::bytes::store(chr, ram, ciram, exram, word, addr.0 % 1024, val);
                logs::log_record(log, count, Answer::Nothing, t.irq);
                count += 1;
                at = next;
                continue;
            }
        }
    };
    Replayed { ending, state: t }
}
