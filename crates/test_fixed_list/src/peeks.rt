// The peeks of a case, which no trace has. Three bytes each: which peek, and the address, low byte first.
use crate::lent::Lent;
use crate::lines;
use answers::Answer;
use memory::{CpuAddr, PpuAddr};
use state::State;
use std::io;

#[derive(Clone, Copy)]
enum Peek {
    Cpu,
    Ppu,
    Sprite,
}

// In the order of their numbers; no case has a number above 2.
impl From<u8> for Peek {
    fn from(n: u8) -> Peek {
        match n {
            0 => Peek::Cpu,
            1 => Peek::Ppu,
            _ => Peek::Sprite,
        }
    }
}

fn answer(peek: Peek, addr: u16, s: State, lent: &Lent<'_>) -> Answer {
    let Lent {
        prg,
        chr,
        ram,
        ciram,
        exram,
    } = lent;
    match peek {
        Peek::Cpu => board::cpu_side::cpu_peek(s, prg, chr, ram, ciram, exram, CpuAddr(addr)),
        Peek::Ppu => board_ppu::peeks::ppu_peek(s, prg, chr, ram, ciram, exram, PpuAddr(addr)),
        Peek::Sprite => board_ppu::peeks::sprite_peek(
            s,
            prg,
            chr,
            ram,
            ciram,
            exram,
            PpuAddr(addr),
        ),
    }
}

// The line of a peek: `peek`, the address, the peek's number, and the answer and the interrupt as in the line of a record.
pub fn each(rt: &impl Print, peeks: &[[u8; 3]], s: State, lent: &Lent<'_>) -> io::Result<()> {
    for [number, low, high] in peeks {
        let addr = u16::from_le_bytes([*low, *high]);
        let answer = answer(Peek::from(*number), addr, s, lent);
        print!(rt; "peek ")?;
        lines::call(rt, addr as u32, *number, answer, s)?;
    }
    Ok(())
}
