// The bytes of a buffer at the start: oracle/README.md, "The fill".
ghost use Rattle.std.specs.Prelude.{◌≡◌, length};
ghost use Rattle.test_fixed_list.specs.Fill.{plain_byte, mixed_byte, fill_byte, filled};

// The buffers, in the order of their numbers.
#[derive(Clone, Copy)]
pub enum Buffer {
    PrgRom,
    Chr,
    PrgRam,
    CiRam,
    ExRam,
}

fn plain_byte(buffer: Buffer, offset: usize) -> u8
    ensures { result ≡ plain_byte buffer offset }
{
    match buffer {
        Buffer::PrgRom => (offset / 1024 % 256) as u8,
        Buffer::Chr => ((128 + offset / 1024) % 256) as u8,
        _ => 0,
    }
}

fn mixed_byte(seed: u8, buffer: Buffer, offset: usize) -> u8
    ensures { result ≡ mixed_byte seed buffer offset }
{
    let page = offset / 1024 * 7 + offset % 1024 * 3 + offset / 256;
    let sum = page + offset / 65536 * 37 + seed as usize * 29 + buffer as usize * 53;
    (sum % 256) as u8
}

fn fill_byte(seed: u8, buffer: Buffer, offset: usize) -> u8
    ensures { result ≡ fill_byte seed buffer offset }
{
    if seed == 0 {
        plain_byte(buffer, offset)
    } else {
        mixed_byte(seed, buffer, offset)
    }
}

#[tactic(auto, unfolding(crate::specs::Fill::filled))]
pub fn fill(bytes: &mut [u8], seed: u8, buffer: Buffer)
    ensures { bytes.new ≡ filled seed buffer (length bytes.old) }
{
    for (offset, byte) in bytes.iter_mut().enumerate() {
        *byte = fill_byte(seed, buffer, offset);
    }
}
