// The exports. C calls each by its name, so each is a function of its own.
ghost use Rattle.std.specs.Prelude.{◌≡◌, not, eqb};
ghost use Rattle.memory.specs.Bytes.{mem_of};
ghost use Rattle.state.specs.declared.State.{State};
ghost use Rattle.board.specs.CpuSide.{cpu_read, cpu_write};
ghost use Rattle.board.specs.Loads.{load_call};
ghost use Rattle.board.specs.StateCalls.{reset_call, clock_call, ppu_register_call};
ghost use Rattle.board_ppu.specs.Fetch.{ppu_fetch};
ghost use Rattle.board_ppu.specs.Peeks.{ppu_write};
ghost use Rattle.host_state.specs.Words.{mirroring_numbered};
ghost use Rattle.host.specs.Hosted.{left_words, leaving_words, on_words, left_memory, on_memory};

// CHR is writable where the byte is not 0; mirroring is 0 to 4, and 4 stands for what is above. What the words held does not matter. A refused
// load leaves the zero state.
#[unsafe(no_mangle)]
pub extern "C" fn mmc5_load(
    words: &mut [u16; 144],
    prg: &[u8],
    chr: &[u8],
    ram: &[u8],
    ciram: &[u8],
    exram: &[u8],
    chr_writable: u8,
    mirroring: u8,
) -> u32
    ensures { left_words result words.new ≡ leaving_words (load_call (mem_of prg.now chr.now ram.now ciram.now exram.now) (not (eqb chr_writable 0)) (mirroring_numbered mirroring)) }
{
    host::loads::mmc5_load(words, prg, chr, ram, ciram, exram, chr_writable, mirroring)
}

// Modes 8k and 1k.
#[unsafe(no_mangle)]
pub extern "C" fn mmc5_reset(words: &mut [u16; 144]) -> u32
    ensures { left_words result words.new ≡ on_words words.old (λ (s : State). reset_call s) }
{
    host::resets::mmc5_reset(words)
}

// One CPU clock.
#[unsafe(no_mangle)]
pub extern "C" fn mmc5_clock(words: &mut [u16; 144]) -> u32
    ensures { left_words result words.new ≡ on_words words.old (λ (s : State). clock_call s) }
{
    host::clocks::mmc5_clock(words)
}

// A CPU read.
#[unsafe(no_mangle)]
pub extern "C" fn mmc5_cpu_read(
    words: &mut [u16; 144],
    prg: &[u8],
    chr: &[u8],
    ram: &[u8],
    ciram: &[u8],
    exram: &[u8],
    addr: u16,
) -> u32
    ensures { left_words result words.new ≡ on_words words.old (λ (s : State). cpu_read s (mem_of prg.now chr.now ram.now ciram.now exram.now) addr) }
{
    host::reads::mmc5_cpu_read(words, prg, chr, ram, ciram, exram, addr)
}

// A CPU write.
#[unsafe(no_mangle)]
pub extern "C" fn mmc5_cpu_write(
    words: &mut [u16; 144],
    prg: &[u8],
    chr: &mut [u8],
    ram: &mut [u8],
    ciram: &mut [u8],
    exram: &mut [u8],
    addr: u16,
    val: u8,
) -> u32
    ensures { left_memory result words.new (mem_of prg.now chr.new ram.new ciram.new exram.new)
        ≡ on_memory words.old (mem_of prg.now chr.old ram.old ciram.old exram.old) (λ (s : State). cpu_write s (mem_of prg.now chr.old ram.old ciram.old exram.old) addr val) }
{
    host::writes::mmc5_cpu_write(words, prg, chr, ram, ciram, exram, addr, val)
}

// A PPU register write.
#[unsafe(no_mangle)]
pub extern "C" fn mmc5_ppu_register(words: &mut [u16; 144], addr: u16, val: u8) -> u32
    ensures { left_words result words.new ≡ on_words words.old (λ (s : State). ppu_register_call s addr val) }
{
    host::ppu_registers::mmc5_ppu_register(words, addr, val)
}

// A PPU fetch.
#[unsafe(no_mangle)]
pub extern "C" fn mmc5_ppu_fetch(
    words: &mut [u16; 144],
    prg: &[u8],
    chr: &[u8],
    ram: &[u8],
    ciram: &[u8],
    exram: &[u8],
    addr: u16,
) -> u32
    ensures { left_words result words.new ≡ on_words words.old (λ (s : State). ppu_fetch s (mem_of prg.now chr.now ram.now ciram.now exram.now) addr) }
{
    host::fetches::mmc5_ppu_fetch(words, prg, chr, ram, ciram, exram, addr)
}

// A PPU memory write.
#[unsafe(no_mangle)]
pub extern "C" fn mmc5_ppu_write(
    words: &mut [u16; 144],
    prg: &[u8],
    chr: &mut [u8],
    ram: &mut [u8],
    ciram: &mut [u8],
    exram: &mut [u8],
    addr: u16,
    val: u8,
) -> u32
    ensures { left_memory result words.new (mem_of prg.now chr.new ram.new ciram.new exram.new)
        ≡ on_memory words.old (mem_of prg.now chr.old ram.old ciram.old exram.old) (λ (s : State). ppu_write s (mem_of prg.now chr.old ram.old ciram.old exram.old) addr val) }
{
    host::ppu_writes::mmc5_ppu_write(words, prg, chr, ram, ciram, exram, addr, val)
}
