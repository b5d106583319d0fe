// Plays the traces of a case file from standard input, each as the program `replay` does, and prints their lines one after the other. The file
// `stdin` is oracle/fixed/traces.cases, `stdout` what the Rust gave: the worked example, no record, every cut of a trace, each refusal in each
// kind of record, 8,192 bytes and 8,193. oracle/README.md has the format of a case; all of these have 01's cartridge.
#![tactic(auto)]

ghost use Rattle.std.specs.Prelude.{◌<◌, length, IfSome};

use std::io;

// How many bytes stand before a case's trace; the last two are its length, low one first.
const HEAD: usize = 11;

// The trace of the first case, and the bytes after the case; none where it is cut.
fn first_case(cases: &[u8]) -> Option<(&[u8], &[u8])>
    ensures { IfSome result (λ c. length c.1.now < length cases.now) }
{
    let ([.., low, high], rest) = cases.split_first_chunk::<HEAD>()?;
    rest.split_at_checked(u16::from_le_bytes([*low, *high]) as usize)
}

fn print_trace(rt: &impl Print, trace: &[u8]) -> io::Result<()> {
    let mut out = [0u8; 131072];
    let length = transcript::cartridge::transcribe(&mut out, trace);
    print::print_first(rt, &out, length)
}

fn print_all(rt: &impl Print, cases: &[u8]) -> io::Result<()> {
    let mut rest = cases;
    while let Some((trace, after)) = first_case(rest) {
        print_trace(rt, trace)?;
        rest = after;
    }
    Ok(())
}

// No heap: the buffer has room for every case file of the list.
fn main(rt: HostRuntime) -> io::Result<()> {
    let mut input = [0u8; 65536];
    let cases = print::read_input(&rt, &mut input)?;
    print_all(&rt, cases)
}
