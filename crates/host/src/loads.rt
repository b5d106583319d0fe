// Load, over lent words.
ghost use Rattle.std.specs.Prelude.{◌≡◌, not, eqb};
ghost use Rattle.memory.specs.Bytes.{mem_of};
ghost use Rattle.board.specs.Loads.{load_call};
ghost use Rattle.host_state.specs.Words.{mirroring_numbered};
ghost use Rattle.host.specs.Hosted.{left_words, leaving_words};

use board::loads::Settings;
use host_state::{read, whole_state};

// CHR is writable where the byte is not 0; mirroring is 0 to 4, and 4 stands for what is above. What the words held does not matter. A refused
// load leaves the zero state.
pub fn mmc5_load(
    words: &mut [u16; 144],
    prg: &[u8],
    chr: &[u8],
    ram: &[u8],
    ciram: &[u8],
    exram: &[u8],
    chr_writable: u8,
    mirroring: u8,
) -> u32
    ensures { left_words result words.new ≡ leaving_words (load_call (mem_of prg.now chr.now ram.now ciram.now exram.now) (not (eqb chr_writable 0)) (mirroring_numbered mirroring)) }
{
    let settings = Settings {
        chr_writable: chr_writable != 0,
        mirroring: read::mirroring_numbered(u16::from(mirroring)),
    };
    let loaded = board::loads::load(prg, chr, ram, ciram, exram, settings);
    whole_state::put_state(loaded.state, words);
    host_answers::with_interrupt(loaded.answer, loaded.state.irq)
}
