// Loads and reads over buffers of other lengths: all as recorded, then all but one.
use crate::lent::{Lent, as_recorded, zeros};
use crate::{Got, read};
use state::State;
use std::io;

fn load(rt: &impl Print, label: &str, lent: Lent<'_>) -> io::Result<()> {
    println!(rt; "{label}: {}", Got(lent.load().answer))
}

fn loads(rt: &impl Print) -> io::Result<()> {
    let all = as_recorded();
    let (short, long) = (zeros(2000), zeros(4096));
    load(rt, "load", all)?;
    load(rt, "load PRG-ROM 4,096", Lent { prg: long, ..all })?;
    load(rt, "load CHR 2,000", Lent { chr: short, ..all })?;
    load(rt, "load PRG-RAM 2,000", Lent { ram: short, ..all })?;
    load(rt, "load CIRAM 4,096", Lent { ciram: long, ..all })?;
    load(rt, "load ExRAM 4,096", Lent { exram: long, ..all })?;
    let nothing = Lent {
        prg: &[],
        chr: &[],
        ram: &[],
        ciram: &[],
        exram: &[],
    };
    load(rt, "load of nothing", nothing)
}

fn reads(rt: &impl Print, s: State) -> io::Result<()> {
    let all = as_recorded();
    read(rt, "all lengths as recorded", s, all)?;
    read(rt, "PRG-ROM of no byte", s, Lent { prg: &[], ..all })?;
    read(rt, "CHR of no byte", s, Lent { chr: &[], ..all })?;
    read(rt, "PRG-RAM of no byte", s, Lent { ram: &[], ..all })?;
    read(rt, "CIRAM of no byte", s, Lent { ciram: &[], ..all })?;
    read(rt, "ExRAM of no byte", s, Lent { exram: &[], ..all })
}

pub fn each(rt: &impl Print, s: State) -> io::Result<()> {
    loads(rt)?;
    reads(rt, s)
}
