// The program `replay`: plays the trace on standard input over 01's cartridge, and prints a line for each record. The lines are those of
// `transcript` (crate transcript, specs/Cartridge.antt); what is said of standard input and output is std's.
// `stdin` and `stdout` are 01's worked example.
#![tactic(auto)]

use std::io;

// No heap: both buffers are fixed. The text stands whole in `out`: `TranscriptIsHistory.whole`, crates/theorems_host/specs/Printed.antt.
fn main(rt: HostRuntime) -> io::Result<()> {
    let mut input = [0u8; 65536];
    let mut out = [0u8; 131072];
    let trace = print::read_input(&rt, &mut input)?;
    let length = transcript::cartridge::transcribe(&mut out, trace);
    print::print_first(&rt, &out, length)
}
