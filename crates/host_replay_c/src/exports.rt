// The export.
ghost use Rattle.std.specs.Prelude.{◌≡◌};
ghost use Rattle.memory.specs.Bytes.{mem_of};
ghost use Rattle.host_replay.specs.Replays.{left_replay, replay_on};

// Plays a trace, and logs each answer.
#[unsafe(no_mangle)]
pub extern "C" fn mmc5_replay(
    words: &mut [u16; 144],
    prg: &[u8],
    chr: &mut [u8],
    ram: &mut [u8],
    ciram: &mut [u8],
    exram: &mut [u8],
    trace: &[u8],
    log: &mut [u8],
) -> u32
    ensures { left_replay result words.new (mem_of prg.now chr.new ram.new ciram.new exram.new) log.new
        ≡ replay_on words.old trace.now (mem_of prg.now chr.old ram.old ciram.old exram.old) log.old }
{
    host_replay::mmc5_replay(words, prg, chr, ram, ciram, exram, trace, log)
}
