// The exports. C calls each by its name, so each is a function of its own.
ghost use Rattle.std.specs.Prelude.{◌≡◌};
ghost use Rattle.memory.specs.Bytes.{mem_of};
ghost use Rattle.memory.specs.PageWords.{page_of};
ghost use Rattle.state.specs.declared.State.{State};
ghost use Rattle.cpu.specs.Writes.{prg_word_at};
ghost use Rattle.board.specs.CpuSide.{cpu_peek};
ghost use Rattle.board.specs.StateCalls.{mirroring_call, interrupt_call};
ghost use Rattle.board_ppu.specs.Peeks.{ppu_peek, sprite_peek, chr_word_at};
ghost use Rattle.views.specs.Views.{cpu_view, ppu_view};
ghost use Rattle.host_answers.specs.Answers.{answer_plain, answer_mirroring, answer_interrupt};
ghost use Rattle.host_looks.specs.Looks.{look_on};
ghost use Rattle.host_looks.specs.Pages.{entry_on, copied_of, copy_on};

// A CPU peek.
#[unsafe(no_mangle)]
pub extern "C" fn mmc5_cpu_peek(
    words: &[u16; 144],
    prg: &[u8],
    chr: &[u8],
    ram: &[u8],
    ciram: &[u8],
    exram: &[u8],
    addr: u16,
) -> u32
    ensures { result ≡ look_on words.now answer_plain (λ (s : State). cpu_peek s (mem_of prg.now chr.now ram.now ciram.now exram.now) addr) }
{
    host_looks::peeks::mmc5_cpu_peek(words, prg, chr, ram, ciram, exram, addr)
}

// A PPU peek.
#[unsafe(no_mangle)]
pub extern "C" fn mmc5_ppu_peek(
    words: &[u16; 144],
    prg: &[u8],
    chr: &[u8],
    ram: &[u8],
    ciram: &[u8],
    exram: &[u8],
    addr: u16,
) -> u32
    ensures { result ≡ look_on words.now answer_plain (λ (s : State). ppu_peek s (mem_of prg.now chr.now ram.now ciram.now exram.now) addr) }
{
    host_looks::peeks::mmc5_ppu_peek(words, prg, chr, ram, ciram, exram, addr)
}

// A sprite peek.
#[unsafe(no_mangle)]
pub extern "C" fn mmc5_sprite_peek(
    words: &[u16; 144],
    prg: &[u8],
    chr: &[u8],
    ram: &[u8],
    ciram: &[u8],
    exram: &[u8],
    addr: u16,
) -> u32
    ensures { result ≡ look_on words.now answer_plain (λ (s : State). sprite_peek s (mem_of prg.now chr.now ram.now ciram.now exram.now) addr) }
{
    host_looks::peeks::mmc5_sprite_peek(words, prg, chr, ram, ciram, exram, addr)
}

// The mirroring, 0 to 4.
#[unsafe(no_mangle)]
pub extern "C" fn mmc5_mirroring(words: &[u16; 144]) -> u32
    ensures { result ≡ look_on words.now answer_mirroring (λ (s : State). mirroring_call s) }
{
    host_looks::questions::mmc5_mirroring(words)
}

// Whether the interrupt is up, 0 or 1.
#[unsafe(no_mangle)]
pub extern "C" fn mmc5_interrupt(words: &[u16; 144]) -> u32
    ensures { result ≡ look_on words.now answer_interrupt (λ (s : State). interrupt_call s) }
{
    host_looks::questions::mmc5_interrupt(words)
}

// The PRG table's entry at a CPU address.
#[unsafe(no_mangle)]
pub extern "C" fn mmc5_cpu_entry(words: &[u16; 144], addr: u16) -> u32
    ensures { result ≡ entry_on words.now (λ (s : State). page_of (prg_word_at s.prg_pages addr)) }
{
    host_looks::pages::mmc5_cpu_entry(words, addr)
}

// The CHR table's entry at a PPU address.
#[unsafe(no_mangle)]
pub extern "C" fn mmc5_ppu_entry(words: &[u16; 144], addr: u16) -> u32
    ensures { result ≡ entry_on words.now (λ (s : State). page_of (chr_word_at s.chr_pages addr)) }
{
    host_looks::pages::mmc5_ppu_entry(words, addr)
}

// The bytes that the page at a CPU address shows of PRG-ROM or of PRG-RAM.
#[unsafe(no_mangle)]
pub extern "C" fn mmc5_cpu_page<'a>(
    words: &[u16; 144],
    prg: &'a [u8],
    chr: &[u8],
    ram: &'a [u8],
    ciram: &[u8],
    exram: &[u8],
    addr: u16,
    out: &mut [u8],
) -> u32
    ensures { copied_of result out.new ≡ copy_on words.now (λ (s : State). cpu_view s (mem_of prg.now chr.now ram.now ciram.now exram.now) addr) out.old }
{
    host_looks::pages::mmc5_cpu_page(words, prg, chr, ram, ciram, exram, addr, out)
}

// The bytes that the page at a PPU address shows of CHR.
#[unsafe(no_mangle)]
pub extern "C" fn mmc5_ppu_page(
    words: &[u16; 144],
    prg: &[u8],
    chr: &[u8],
    ram: &[u8],
    ciram: &[u8],
    exram: &[u8],
    addr: u16,
    out: &mut [u8],
) -> u32
    ensures { copied_of result out.new ≡ copy_on words.now (λ (s : State). ppu_view s (mem_of prg.now chr.now ram.now ciram.now exram.now) addr) out.old }
{
    host_looks::pages::mmc5_ppu_page(words, prg, chr, ram, ciram, exram, addr, out)
}
