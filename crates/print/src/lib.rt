// The start of a text on standard output, and bytes of standard input, for the programs that are held to a stored output.
#![tactic(auto)]

ghost use Rattle.std.specs.Prelude.{◌≤◌, length, IfOk};

use std::io;
use std::io::Read;

// The first n bytes of a text, where it has so many: what writes into a lent buffer gives a length beside it, for there is no heap.
pub fn print_first(rt: &impl Print, text: &[u8], n: usize) -> io::Result<()> {
    match text.get(..n) {
        Some(first) => rt.write_all(first),
        None => Ok(()),
    }
}

// Reads until `bytes` is full or standard input ends; the start of `bytes` that was read. The loop counts by hand: std's `read_exact` fails where
// the input is shorter, `read_to_end` allocates, and `copy` says nothing of the count.
pub fn read_input<'a>(rt: &impl Input, bytes: &'a mut [u8]) -> io::Result<&'a [u8]>
    ensures { IfOk result (λ read. length read.now ≤ length bytes.old) }
{
    let mut input = rt.reader();
    let mut done = 0;
    while done < bytes.len() {
        let n = input.read(&mut bytes[done..])?;
        if n == 0 {
            break;
        }
        done += n;
    }
    Ok(&bytes[..done])
}
