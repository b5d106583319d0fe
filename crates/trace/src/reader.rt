// The reader: the trace slice and its place together. 01, "Trace": "The trace reader keeps the trace slice and its place together." These
// functions are few and thin; the work is in `record_at`. Who has a plain slice calls `first_record` and `records::record_at`.
ghost use Rattle.std.specs.Prelude.{◌≡◌};
ghost use Rattle.trace.specs.Records.{record_at};

use crate::{Found, records};

#[derive(Clone, Copy)]
pub struct Reader<'a> {
    pub trace: &'a [u8],
    pub at: usize,
}

// A reader of a whole trace.
pub fn new<'a>(trace: &'a [u8]) -> Reader<'a>
    ensures { (result.trace ≡ trace.entry) × (result.at ≡ 0) }
{
    Reader { trace, at: 0 }
}

// What stands at the reader's place.
pub fn next_record<'a>(r: Reader<'a>) -> Found
    ensures { result ≡ record_at r.entry.trace.now r.entry.at }
{
    records::record_at(r.trace, r.at)
}

// The reader at another place of its trace.
pub fn advanced<'a>(r: Reader<'a>, next: usize) -> Reader<'a>
    ensures { (result.trace ≡ r.entry.trace) × (result.at ≡ next) }
{
    Reader {
        trace: r.trace,
        at: next,
    }
}

// The first record of a trace.
pub fn first_record(trace: &[u8]) -> Found
    ensures { result ≡ record_at trace.now 0 }
{
    next_record(new(trace))
}
