// The clock over a lent record. A line for each clock: what it answered, and the record after it.
ghost use Rattle.std.specs.Prelude.{◌≡◌};
ghost use Rattle.scanline.specs.Clock.{clock_outcome};

use answers::Answer;
use memory::PpuAddr;
use scanline::record::{ClockOutcome, ClockRecord};
use std::io;

// A record of this function's own is lent.
fn lent(r: ClockRecord) -> ClockOutcome
    ensures { result ≡ clock_outcome r }
{
    let mut t = r;
    let answer = scanline::record::clock_lent(&mut t);
    ClockOutcome { answer, record: t }
}

// One clock, and its line; the record after it.
fn clocked(rt: &impl Print, r: ClockRecord) -> io::Result<ClockRecord> {
    let ClockOutcome { answer, record } = lent(r);
    print!(rt;
        "reading {}, idle {}, in frame {}, previous {}: ",
        record.reading as u8, record.idle_count, record.in_frame as u8, record.prev_some as u8
    )?;
    match answer {
        Answer::Refused(why) => println!(rt; "{}", answers::number_of(why))?,
        _ => println!(rt; "taken")?,
    }
    Ok(record)
}

fn record(reading: bool, idle_count: u8) -> ClockRecord {
    ClockRecord {
        reading,
        idle_count,
        in_frame: true,
        prev_some: true,
        prev_addr: PpuAddr(0x2000),
    }
}

// In frame after a fetch: a clock that sees the fetch, then three idle ones. The third ends the frame; one more counts anew.
fn frame(rt: &impl Print) -> io::Result<()> {
    let mut r = record(true, 2);
    for _ in 0..5 {
        r = clocked(rt, r)?;
    }
    Ok(())
}

pub fn each(rt: &impl Print) -> io::Result<()> {
    frame(rt)?;
    clocked(rt, record(false, 3))?;
    clocked(rt, record(true, 255))?;
    Ok(())
}
