// The split's registers $5200-$5202, when it is active, and the ranges of its state.
ghost use Rattle.std.specs.Prelude.{◌≡◌};
ghost use Rattle.split.specs.Control.{split_at_load, with_control, with_scroll, with_bank, split_active, split_ranges};

use crate::VSplit;

pub fn new() -> VSplit
    ensures { result ≡ split_at_load }
{
    VSplit::default()
}

// $5200    [ES.T TTTT]    enable, side, tile to split at
pub fn set_control(v: VSplit, val: u8) -> VSplit
    ensures { result ≡ with_control v val }
{
    VSplit {
        mode: val,
        enabled: val >> 7 == 1,
        right: (val >> 6) % 2 == 1,
        tile: val % 32,
        ..v
    }
}

// $5201    [YYYY YYYY]    the split's own scroll
pub fn set_scroll(v: VSplit, val: u8) -> VSplit
    ensures { result ≡ with_scroll v val }
{
    VSplit { scroll: val, ..v }
}

// $5202    [CCCC CCCC]    the split's own 4k page of CHR
pub fn set_bank(v: VSplit, val: u8) -> VSplit
    ensures { result ≡ with_bank v val }
{
    VSplit { bank: val, ..v }
}

pub fn active(v: VSplit, nametable_use: bool, in_frame: bool) -> bool
    ensures { result ≡ split_active v nametable_use in_frame }
{
    v.enabled & nametable_use & in_frame
}

pub fn ranges_ok(v: VSplit) -> bool
    ensures { result ≡ split_ranges v }
{
    (v.tile <= 31) & (v.tile_addr <= 959)
}
