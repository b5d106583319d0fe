// The vertical split: its registers, the region that name fetches move in and out of, and the places in ExRAM and CHR that fetches in the
// region get. 01, module 8; in the Rust, `VSplit` and the functions `split_*`. The tile count is not known here: its column, whether it is
// 40 or more, and whether it is under 42, come in as parameters. What the names mean stands in specs/, a file for each module below.
#![tactic(auto)]

ghost use Rattle.split.specs.Examples.{Examples};
ghost use Rattle.split.specs.Promise.{Split, Column32, InRegion};

pub mod control;
pub mod places;
pub mod region;

// After the Rust's `VSplit`. `right` is its `Side::Right`.
#[derive(Clone, Copy, Debug, PartialEq, Eq, Default)]
pub struct VSplit {
    pub mode: u8,
    pub enabled: bool,
    pub right: bool,
    pub tile: u8,
    pub scroll: u8,
    pub bank: u8,
    // Whether the tile that is being fetched lies in the split's region.
    pub in_region: bool,
    // Where in ExRAM the split tile stands that the last name fetch in the region chose; the fetches after it go by this, not by the
    // PPU's address.
    pub tile_addr: u16,
}

// Where in ExRAM the attribute byte of a split tile stands, and how far its two bits are shifted.
#[derive(Clone, Copy, Debug, PartialEq, Eq)]
pub struct AttributePlace {
    pub addr: u16,
    pub shift: u8,
}

// No code: its contract holds what is promised of the split, so that a proof that goes missing fails the check.
pub fn promises()
    ensures { Split × Column32 × InRegion }
{}

// No code: its contract holds the worked cases.
pub fn examples()
    ensures { Examples }
{}
