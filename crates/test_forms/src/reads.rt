// The reader of a trace. A line for each record: its place, and its kind, the end or a refusal.
ghost use Rattle.std.specs.Prelude.{◌≡◌};
ghost use Rattle.trace.specs.Records.{record_at};

use std::io;
use trace::Found;

// What stands at a place of a trace. The reader is made, set to the place and asked.
fn found_at(trace: &[u8], at: usize) -> Found
    ensures { result ≡ record_at trace.now at }
{
    trace::reader::next_record(trace::reader::advanced(trace::reader::new(trace), at))
}

// The line of what stands at a place; where the reader goes on, if it does.
fn print_record(rt: &impl Print, at: usize, found: Found) -> io::Result<Option<usize>> {
    match found {
        Ok(None) => {
            println!(rt; "place {at}: end")?;
            Ok(None)
        }
        Err(why) => {
            println!(rt; "place {at}: refused {}", answers::number_of(why))?;
            Ok(None)
        }
        Ok(Some((call, next))) => {
            println!(rt; "place {at}: kind {}", trace::kind_of(call))?;
            Ok(Some(next))
        }
    }
}

// Every record of a trace of seven bytes or less, and of 01's worked example, which has six.
fn read(rt: &impl Print, trace: &[u8]) -> io::Result<()> {
    let mut at = 0;
    for _ in 0..8u32 {
        let Some(next) = print_record(rt, at, found_at(trace, at))? else {
            break;
        };
        at = next;
    }
    Ok(())
}

// The first record alone.
fn first(rt: &impl Print, trace: &[u8]) -> io::Result<()> {
    print!(rt; "first, ")?;
    print_record(rt, 0, trace::reader::first_record(trace))?;
    Ok(())
}

pub fn each(rt: &impl Print) -> io::Result<()> {
    let worked =
        b"\x01\x80\xC0\x03\x02\x85\xA4\x01\x07\x01\x85\xA4\x01\x01\x86\xA4\x01\x00\x04\x80\x40";
    read(rt, worked)?;
    first(rt, worked)?;
    read(rt, b"")?;
    // a clock, then a CPU write without its value
    read(rt, b"\x00\x02\x85\xA4\x01")?;
    // a clock, then no kind
    read(rt, b"\x00\x07")
}
