// The lines of a replay, written into a lent buffer.
ghost use Rattle.std.specs.Prelude.{◌≡◌, suc, ◌≤◌, length};
ghost use Rattle.text.specs.Sheet.{sheet, text_written, written};
ghost use Rattle.trace.specs.Records.{record_at};
ghost use Rattle.transcript.specs.Printed.{refusal_at, line_of, next_of, printed_from, printed};

use answers::Refusal;
use player::Ending;
use text::pen::Pen;
use trace::reader::Reader;

// Why the replay stopped at a place, if it did.
fn refusal_at(ending: Ending, at: usize) -> Option<Refusal>
    ensures { result ≡ refusal_at ending at }
{
    match ending {
        Err(stopped) if at == stopped.place => Some(stopped.refusal),
        _ => None,
    }
}

// The line of what stands at a reader's place, as record n; and the place of the record that follows, if one does.
fn print_record<'a>(
    pen: &mut Pen<'_>,
    n: usize,
    reader: Reader<'a>,
    log: &[u8],
    ending: Ending,
) -> Option<usize>
    requires { n ≤ 8192 }
    ensures { (pen.new
        ≡ written pen.old (line_of (record_at reader.entry.trace.now reader.entry.at) reader.entry.at n log.now ending))
        × (result ≡ next_of (record_at reader.entry.trace.now reader.entry.at) reader.entry.at ending) }
{
    match trace::reader::next_record(reader) {
        Ok(None) => {
            pen.end_line(n as u32);
            None
        }
        Err(why) => {
            pen.unreadable_line(n as u32, why);
            None
        }
        Ok(Some((call, next))) => {
            let kind = trace::kind_of(call);
            if let Some(why) = refusal_at(ending, reader.at) {
                pen.refused_line(n as u32, kind, why);
                return None;
            }
            let first = memory::bytes::byte(log, 2 * n);
            let second = memory::bytes::byte(log, 2 * n + 1);
            pen.logged_line(n as u32, kind, first, second);
            Some(next)
        }
    }
}

// The lines of a trace that is not too long. The loop carries a reader; the work on a record is `print_record`.
fn print_records(pen: &mut Pen<'_>, trace: &[u8], log: &[u8], ending: Ending)
    requires { length trace.now ≤ 8192 }
    ensures { pen.new ≡ written pen.old (printed_from (suc (length trace.now)) trace.now 0 0 log.now ending) }
{
    let mut reader = trace::reader::new(trace);
    let mut n: usize = 0;
    while let Some(next) = print_record(pen, n, reader, log, ending) {
        reader = trace::reader::advanced(reader, next);
        n += 1;
    }
}

// What is printed of a replay.
#[tactic(auto, unfolding(crate::specs::Printed::printed, text::specs::Sheet::written))]
pub fn print(out: &mut [u8], trace: &[u8], log: &[u8], ending: Ending) -> usize
    ensures { sheet out.new result ≡ text_written (sheet out.old 0) (printed trace.now log.now ending) }
{
    let mut pen = Pen { out, at: 0 };
    if trace::too_long(trace.len()) {
        pen.too_long_line();
    } else {
        print_records(&mut pen, trace, log, ending);
    }
    pen.at
}
