// What bad input gets: wrong lengths, each range of the state broken one at a time, each audio register, fetches at the line
// counter's limit and where the tile count turns over. One line each: what was tried, and the refusal's number or `taken`. The file `stdout` is written from document 01's table of refusals.
#![tactic(auto)]

use answers::Answer;
use lent::Lent;
use state::State;
use std::{fmt, io};

mod broken;
mod counters;
mod lengths;
mod lent;

// What a call got, as the end of a line.
#[derive(Clone, Copy)]
pub struct Got(pub Answer);

impl fmt::Display for Got {
    fn fmt<W: fmt::Write>(&self, f: &mut fmt::Formatter<W>) -> fmt::Result {
        match self.0 {
            Answer::Refused(refusal) => write!(f, "{}", answers::number_of(refusal)),
            _ => f.write_str("taken"),
        }
    }
}

// A CPU read of $8000.
pub fn read(rt: &impl Print, label: &str, s: State, lent: Lent<'_>) -> io::Result<()> {
    println!(rt; "{label}: {}", Got(lent.cpu_read(s, 0x8000).answer))
}

// A read, a peek and a write of $5000-$5016, at the audio registers and beside them, over buffers of the recorded lengths.
fn audio_registers(rt: &impl Print, s: State) -> io::Result<()> {
    let lent = lent::as_recorded();
    for addr in 0x5000..=0x5016 {
        println!(rt; "read {addr}: {}", Got(lent.cpu_read(s, addr).answer))?;
        println!(rt; "peek {addr}: {}", Got(lent.cpu_peek(s, addr)))?;
        println!(rt; "write {addr}: {}", Got(lent::written(s, addr)))?;
    }
    Ok(())
}

fn main(rt: HostRuntime) -> io::Result<()> {
    let s = lent::as_recorded().load().state;
    lengths::each(&rt, s)?;
    broken::each(&rt, s)?;
    audio_registers(&rt, s)?;
    counters::each(&rt, s)
}
