// Words read as the state that they stand for, and a state put into its words.
ghost use Rattle.std.specs.Prelude.{◌≡◌};
ghost use Rattle.memory.specs.Tests.{pick};
ghost use Rattle.host_state.specs.Words.{status_of, with_no_tile, within_limits, state_of, words_of};

use crate::{groups, limits, read, tables};
use state::{PpuStatus, Screen, State};

// The status that words stand for: out of range where a word is above its limit. A call of its own: with the loop over the limits in it, `state_of` would
// have each of its callers clear the state's place by `memset` first, and the archive for C would want that name from outside (docs/HOST.md).
#[inline(never)]
fn status_within(words: &[u16; 144]) -> PpuStatus
    ensures { result ≡ pick (within_limits words.now) (status_of words.now) (with_no_tile (status_of words.now)) }
{
    let status = read::status_of(words);
    if limits::within_limits(words) {
        status
    } else {
        PpuStatus {
            tile_number: 84,
            ..status
        }
    }
}

// The status first, so that nothing else need be kept over that call.
pub fn state_of(words: &[u16; 144]) -> State
    ensures { result ≡ state_of words.now }
{
    let ppu = status_within(words);
    State {
        lengths: read::lengths_of(words),
        regs: read::regs_of(words),
        vsplit: read::split_of(words),
        irq: read::detector_of(words),
        ppu,
        screen: Screen {
            mirroring: read::mirroring_of(words),
        },
        prg_banks: read::prg_banks_of(words),
        chr_banks: read::chr_banks_of(words),
        prg_pages: tables::prg_table(words),
        chr_pages: tables::chr_table(words),
    }
}

// Every word is put, whatever it was.
pub fn put_state(s: State, words: &mut [u16; 144])
    ensures { words.new ≡ words_of s }
{
    groups::put_lengths(s.lengths, words);
    groups::put_regs(s.regs, words);
    groups::put_split(s.vsplit, words);
    groups::put_detector(s.irq, words);
    groups::put_status(s.ppu, words);
    groups::put_mirroring(s.screen.mirroring, words);
    groups::put_prg_banks(s.prg_banks, words);
    groups::put_chr_banks(s.chr_banks, words);
    words[63] = 0;
    tables::put_prg_table(s.prg_pages, words);
    tables::put_chr_table(s.chr_pages, words);
}
