// Plays a case file from standard input and prints the lines of `replay` for each case, for the comparison with the Rust's. The file
// `stdin` is oracle/fixed/cpu.cases and then ppu.cases, `stdout` what the Rust gave (cpu.answers and ppu.answers). oracle/README.md has the format of a case.
// What a case file should not hold prints a line that no replay prints: `cut`, `large`, `load N`.
#![tactic(auto)]

use case::{Case, first_case};
use fill::{Buffer, fill};
use lent::Lent;
use std::io;
use trace::too_long;

mod case;
mod counters;
mod fill;
mod lent;
mod lines;
mod peeks;
mod play;

// The case over buffers of its own lengths.
fn play_over(
    rt: &impl Print,
    case: Case<'_>,
    prg: &mut [u8],
    chr: &mut [u8],
    ram: &mut [u8],
) -> io::Result<()> {
    let mut ciram = [0u8; 2048];
    let mut exram = [0u8; 1024];
    fill(prg, case.seed, Buffer::PrgRom);
    fill(chr, case.seed, Buffer::Chr);
    fill(ram, case.seed, Buffer::PrgRam);
    fill(&mut ciram, case.seed, Buffer::CiRam);
    fill(&mut exram, case.seed, Buffer::ExRam);
    let mut lent = Lent {
        prg,
        chr,
        ram,
        ciram: &mut ciram,
        exram: &mut exram,
    };
    play::play(rt, case, &mut lent)
}

// The case over the first bytes of buffers that are as long as any case needs.
fn play_case(
    rt: &impl Print,
    case: Case<'_>,
    prg: &mut [u8],
    chr: &mut [u8],
    ram: &mut [u8],
) -> io::Result<()> {
    let prg = prg.get_mut(..case.prg);
    let chr = chr.get_mut(..case.chr);
    let ram = ram.get_mut(..case.ram);
    let (Some(prg), Some(chr), Some(ram)) = (prg, chr, ram) else {
        return println!(rt; "large");
    };
    if too_long(case.trace.len()) {
        return println!(rt; "? 11");
    }
    play_over(rt, case, prg, chr, ram)
}

fn play_all(
    rt: &impl Print,
    cases: &[u8],
    prg: &mut [u8],
    chr: &mut [u8],
    ram: &mut [u8],
) -> io::Result<()> {
    let mut rest = cases;
    while let Some((case, after)) = first_case(rest) {
        play_case(rt, case, prg, chr, ram)?;
        rest = after;
    }
    if !rest.is_empty() {
        println!(rt; "cut")?;
    }
    Ok(())
}

// The arrays as slices, outside `main`: there the check runs out of stack at a slice of a megabyte.
fn play_in(
    rt: &impl Print,
    cases: &[u8],
    prg: &mut [u8; 1048576],
    chr: &mut [u8; 1048576],
    ram: &mut [u8; 65536],
) -> io::Result<()> {
    play_all(rt, cases, prg, chr, ram)
}

// No heap: each array is as long as its part of a cartridge can be.
fn main(rt: HostRuntime) -> io::Result<()> {
    let mut input = [0u8; 65536];
    let mut prg = [0u8; 1048576];
    let mut chr = [0u8; 1048576];
    let mut ram = [0u8; 65536];
    let cases = print::read_input(&rt, &mut input)?;
    play_in(&rt, cases, &mut prg, &mut chr, &mut ram)
}
