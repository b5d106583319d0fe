// Fetches at the limit of the line counter, and where the tile count turns over. 01, refusal 7: "a fetch at $2000-$3EFF would need .. a line counter above
// 65,279"; CR 7: "so 83 is followed by 42". A line shows both counters before the fetch, the address, and what the fetch got.
use crate::{Got, lent};
use state::State;
use std::io;

// One run's fetches, each over the state that the one before it left.
fn fetches(rt: &impl Print, s: State, addrs: &[u16]) -> io::Result<()> {
    let mut t = s;
    for addr in addrs {
        print!(rt;
            "line {}, tile {}, fetch {addr}: ",
            t.irq.scanline, t.ppu.tile_number
        )?;
        let got = lent::as_recorded().ppu_fetch(t, *addr);
        println!(rt; "{}", Got(got.answer))?;
        t = got.state;
    }
    Ok(())
}

fn counting(s: State, in_frame: bool, line: u16, tile: u32) -> State {
    let mut t = s;
    t.irq.in_frame = in_frame;
    t.irq.scanline = line;
    t.ppu.tile_number = tile;
    t
}

// Three equal fetches make a line. 01, "Examples at the edges": "In frame, line counter 65,278 takes a line, 65,279 refuses." Out of frame a line
// starts from 0. A name fetch to $2FFF counts; an attribute fetch does not, nor a fetch from $3000 on. The third equal fetch zeroes the tile count. CR 7:
// "5 uses the new range", 0 to 83.
pub fn each(rt: &impl Print, s: State) -> io::Result<()> {
    let two_lines = [0x2000, 0x2000, 0x2000, 0x2001, 0x2001, 0x2001, 0x2002];
    fetches(rt, counting(s, true, 65278, 0), &two_lines)?;
    let one_line = [0x2000, 0x2000, 0x2000, 0x2001];
    fetches(rt, counting(s, false, 65279, 0), &one_line)?;
    let past_83 = [0x2000, 0x2001, 0x23C0, 0x3000];
    fetches(rt, counting(s, false, 0, 82), &past_83)?;
    let a_line_and_a_last_name = [0x2000, 0x2000, 0x2000, 0x2FC0];
    fetches(rt, counting(s, false, 0, 81), &a_line_and_a_last_name)?;
    fetches(rt, counting(s, false, 0, 84), &[0x2000])?;
    fetches(rt, counting(s, false, 0, 4294967295), &[0x2000])
}
