// Runs the two forms that lend a struct or keep a reference in one: the clock over a lent record (01, "What must change shape"), and the reader
// that keeps a trace and its place together (01, "Trace"). The file `stdout` is written from document 01.
#![tactic(auto)]

use std::io;

mod clocks;
mod reads;

fn main(rt: HostRuntime) -> io::Result<()> {
    clocks::each(&rt)?;
    reads::each(&rt)
}
