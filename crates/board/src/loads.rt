// Load, and the zero state.
ghost use Rattle.std.specs.Prelude.{◌≡◌, true};
ghost use Rattle.memory.specs.Bytes.{mem_of};
ghost use Rattle.state.specs.Lengths.{lengths_ok};
ghost use Rattle.board.specs.Loads.{zero_state, not_loaded, loaded_state, load_call};

use crate::Outcome;
use answers::{Answer, Refusal};
use memory::PageWord;
use registers::{Mirroring, Regs};
use state::{Lengths, PpuStatus, Screen, State};

// What the cartridge's header says: whether CHR is RAM, and the mirroring.
#[derive(Clone, Copy)]
pub struct Settings {
    pub chr_writable: bool,
    pub mirroring: Mirroring,
}

// The state of a refused load: every number 0, every choice off, every page blank.
fn zero() -> State
    ensures { result ≡ zero_state }
{
    State {
        lengths: Lengths::default(),
        regs: Regs::default(),
        vsplit: split::control::new(),
        irq: scanline::new(),
        ppu: PpuStatus::default(),
        screen: Screen {
            mirroring: Mirroring::Horizontal,
        },
        prg_banks: [0u8; 5],
        chr_banks: [0u8; 16],
        prg_pages: [PageWord(0); 64],
        chr_pages: [PageWord(0); 16],
    }
}

// The state after load: $5117 shows the last bank, and everything is mapped.
#[tactic(auto, unfolding(crate::specs::Loads::loaded_state))]
fn loaded(lengths: Lengths, mirroring: Mirroring) -> State
    requires { lengths_ok lengths ≡ true }
    ensures { result ≡ loaded_state lengths mirroring }
{
    let regs = registers::new();
    let last = (lengths.prg / 8192 - 1) % 128;
    let prg_banks = [0, 0, 0, 0, 128 + last as u8];
    let chr_banks = [0u8; 16];
    let prg_blank = [PageWord(0); 64];
    let prg_pages = banks::prg::map_prg(lengths, regs, prg_banks, prg_blank);
    let chr_blank = [PageWord(0); 16];
    let patterns = banks::chr::map_chr(lengths, regs, chr_banks, false, chr_blank);
    let chr_pages = banks::names::map_names(0, false, patterns);
    State {
        lengths,
        regs,
        vsplit: split::control::new(),
        irq: scanline::new(),
        ppu: PpuStatus::default(),
        screen: Screen { mirroring },
        prg_banks,
        chr_banks,
        prg_pages,
        chr_pages,
    }
}

fn refuse_load(refusal: Refusal) -> Outcome
    ensures { result ≡ not_loaded refusal }
{
    Outcome {
        answer: Answer::Refused(refusal),
        state: zero(),
    }
}

#[tactic(auto, unfolding(crate::specs::Loads::load_call))]
pub fn load(
    prg: &[u8],
    chr: &[u8],
    ram: &[u8],
    ciram: &[u8],
    exram: &[u8],
    settings: Settings,
) -> Outcome
    ensures { result ≡ load_call (mem_of prg.now chr.now ram.now ciram.now exram.now) settings.chr_writable settings.mirroring }
{
    if !state::sizes::prg_taken(prg.len()) {
        return refuse_load(Refusal::Prg);
    }
    if !state::sizes::chr_taken(chr.len()) {
        return refuse_load(Refusal::Chr);
    }
    if !state::sizes::ram_taken(ram.len(), ciram.len(), exram.len()) {
        return refuse_load(Refusal::Ram);
    }
    let lengths = Lengths {
        loaded: true,
        prg: prg.len() as u32,
        chr: chr.len() as u32,
        ram: ram.len() as u32,
        ciram: ciram.len() as u32,
        exram: exram.len() as u32,
        chr_writable: settings.chr_writable,
    };
    Outcome {
        answer: Answer::Nothing,
        state: loaded(lengths, settings.mirroring),
    }
}
