// The limits of the first 64 words: of those that a clock, a read or a fetch puts back one by one, of the others in one chain.
ghost use Rattle.std.specs.Prelude.{◌≡◌, ◌-◌, length, take};
ghost use Rattle.host_state.specs.Words.{limits, all_within, within_limits};

// The most that each of words 16 to 63 may be: seven flags; mirroring; modes, protection, ExRAM mode, $5105, fill, multiplier; the split; `chr_hi`; lengths; the
// bank registers; a spare word.
const LIMITS: [u16; 48] = [
    1, 1, 1, 1, 1, 1, 1, 4, 3, 3, 3, 3, 3, 255, 255, 3, 255, 255, 255, 31, 255, 255, 3, 127, 1024,
    64, 255, 255, 255, 255, 255, 255, 255, 255, 255, 255, 255, 255, 255, 255, 255, 255, 255, 255,
    255, 255, 255, 0,
];

// No code: an array that is lent has its length. Today's prover knows it from the type; kept since it is public, and `theorems_settles` names it.
pub fn sized(words: [u16; 144])
    ensures { length words ≡ 144 }
{}

// Words 0 to 15: the detector, which a clock, a read and a fetch that counts put back, and what else a fetch may change. Each is loaded alone: a load of
// eight at once would wait until the stores of the call before are in the cache (docs/SPEED.md). Flags together are at most 1, and bytes at most 255,
// where each is. Word 1, an address, may be anything: its test is no code.
fn moving_within(words: &[u16; 144]) -> bool
    ensures { result ≡ all_within (take 16 limits) words.now }
{
    let flags = words[0]
        | words[3]
        | words[5]
        | words[7]
        | words[8]
        | words[10]
        | words[14]
        | words[15];
    let bytes = words[2] | words[9];
    let counts = (words[4] <= 2) & (words[6] <= 65279) & (words[12] <= 83);
    let places = (words[1] <= 65535) & (words[11] <= 959) & (words[13] <= 1023);
    (flags <= 1) & (bytes <= 255) & counts & places
}

// Of the others the excesses are gathered bit by bit, and must be nothing: with no branch, so that the compiler can take eight words at once.
pub fn within_limits(words: &[u16; 144]) -> bool
    ensures { result ≡ within_limits words.now }
{
    let moving = moving_within(words);
    let above = words[16..64]
        .iter()
        .zip(&LIMITS)
        .fold(0u16, |above, (n, most)| above | n.saturating_sub(*most));
    moving & (above == 0)
}
