// A trace played over 01's cartridge.
ghost use Rattle.std.specs.Prelude.{◌≡◌, ℕ, ◌+◌, ◌/◌, ◌≤◌, length};
ghost use Rattle.memory.specs.Bytes.{mem_of};
ghost use Rattle.banks.specs.Placed.{placed};
ghost use Rattle.text.specs.Sheet.{sheet, text_written};
ghost use Rattle.transcript.specs.Cartridge.{printed_over, transcript};

use crate::printed;
use board::loads::Settings;
use registers::Mirroring;

// A ROM whose bytes count its pages, from a first one on.
fn count_pages(bytes: &mut [u8], first: u8)
    requires { first + length bytes.old / 1024 ≤ 255 }
    ensures { bytes.new ≡ placed bytes.old 0 (λ (i : ℕ). first + i / 1024) (length bytes.old) }
{
    for (i, byte) in bytes.iter_mut().enumerate() {
        *byte = first + (i / 1024) as u8;
    }
}

// Loads a cartridge, plays the trace and writes its lines.
fn print_over(
    out: &mut [u8],
    trace: &[u8],
    prg: &[u8],
    chr: &mut [u8],
    ram: &mut [u8],
    ciram: &mut [u8],
    exram: &mut [u8],
    log: &mut [u8],
) -> usize
    ensures { sheet out.new result ≡ text_written (sheet out.old 0)
        (printed_over trace.now (mem_of prg.now chr.old ram.old ciram.old exram.old) log.old) }
{
    let settings = Settings {
        chr_writable: false,
        mirroring: Mirroring::Horizontal,
    };
    let loaded = board::loads::load(prg, chr, ram, ciram, exram, settings);
    let s = loaded.state;
    let played = player::replay(s, trace, prg, chr, ram, ciram, exram, log);
    let ending = played.ending;
    printed::print(out, trace, log, ending)
}

// What the program prints for a trace, written from the start of `out`; how many bytes of it.
pub fn transcribe(out: &mut [u8], trace: &[u8]) -> usize
    ensures { sheet out.new result ≡ text_written (sheet out.old 0) (transcript trace.now) }
{
    let mut prg = [0u8; 32768];
    let mut chr = [0u8; 8192];
    let mut ram = [0u8; 8192];
    let mut ciram = [0u8; 2048];
    let mut exram = [0u8; 1024];
    let mut log = [0u8; 16384];
    count_pages(&mut prg, 0);
    count_pages(&mut chr, 128);
    print_over(
        out, trace, &prg, &mut chr, &mut ram, &mut ciram, &mut exram, &mut log,
    )
}
