// Reads over a state with one range broken, for each range of document 01's "STATE ranges". Of page words those that a table may
// not show: another table's buffer, a page past the buffer's end, CHR-ROM marked writable.
use crate::lent::{Lent, as_recorded};
use crate::read;
use memory::page_words::word_of;
use memory::{PageWord, Src};
use state::State;
use std::io;

// A read over the state that a change breaks.
fn broken<F: FnOnce(&mut State)>(
    rt: &impl Print,
    s: State,
    label: &str,
    change: F,
) -> io::Result<()>
    requires { F.IsAlwaysCallable change }
{
    let mut t = s;
    change(&mut t);
    read(rt, label, t, as_recorded())
}

fn counts(rt: &impl Print, s: State) -> io::Result<()> {
    broken(rt, s, "idle count 3", |t| t.irq.idle_count = 3)?;
    broken(rt, s, "line counter 65,280", |t| t.irq.scanline = 65280)?;
    broken(rt, s, "tile count 84", |t| t.ppu.tile_number = 84)?;
    broken(rt, s, "tile cache 1,024", |t| t.ppu.tile_cache = 1024)?;
    broken(rt, s, "split tile 32", |t| t.vsplit.tile = 32)?;
    broken(rt, s, "tile address 960", |t| t.vsplit.tile_addr = 960)
}

fn registers(rt: &impl Print, s: State) -> io::Result<()> {
    broken(rt, s, "PRG mode 4", |t| t.regs.prg_mode = 4)?;
    broken(rt, s, "CHR mode 4", |t| t.regs.chr_mode = 4)?;
    broken(rt, s, "ExRAM mode 4", |t| t.regs.exram_mode = 4)?;
    broken(rt, s, "fill attribute 4", |t| t.regs.fill_attr = 4)?;
    broken(rt, s, "first protect byte 4", |t| t.regs.protect_a = 4)?;
    broken(rt, s, "second protect byte 4", |t| t.regs.protect_b = 4)?;
    broken(rt, s, "chr_hi 255", |t| t.regs.chr_hi = 255)?;
    broken(rt, s, "chr_hi 1,024", |t| t.regs.chr_hi = 1024)
}

fn lengths(rt: &impl Print, s: State) -> io::Result<()> {
    broken(rt, s, "not loaded", |t| t.lengths.loaded = false)?;
    broken(rt, s, "not loaded, with another length", |t| {
        t.lengths.loaded = false;
        t.lengths.prg = 4096;
    })?;
    broken(rt, s, "another length", |t| t.lengths.prg = 0)?;
    let mut t = s;
    t.lengths.prg = 0;
    let lent = Lent {
        prg: &[],
        ..as_recorded()
    };
    read(rt, "PRG-ROM of 0 recorded and lent", t, lent)
}

fn prg_page(rt: &impl Print, s: State, label: &str, word: PageWord) -> io::Result<()> {
    broken(rt, s, label, |t| t.prg_pages[63] = word)
}

fn chr_page(rt: &impl Print, s: State, label: &str, word: PageWord) -> io::Result<()> {
    broken(rt, s, label, |t| t.chr_pages[0] = word)
}

fn pages(rt: &impl Print, s: State) -> io::Result<()> {
    prg_page(rt, s, "CHR in the PRG table", word_of(Src::Chr, 0, false))?;
    prg_page(
        rt,
        s,
        "PRG-ROM past its end",
        word_of(Src::PrgRom, 8, false),
    )?;
    prg_page(rt, s, "a word that names no page", PageWord(4000))?;
    chr_page(
        rt,
        s,
        "PRG-ROM in the CHR table",
        word_of(Src::PrgRom, 0, false),
    )?;
    chr_page(rt, s, "CHR past its end", word_of(Src::Chr, 8, false))?;
    chr_page(rt, s, "CHR-ROM marked writable", word_of(Src::Chr, 0, true))
}

pub fn each(rt: &impl Print, s: State) -> io::Result<()> {
    counts(rt, s)?;
    registers(rt, s)?;
    lengths(rt, s)?;
    pages(rt, s)
}
