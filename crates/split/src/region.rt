// The region: a name fetch moves in or out of it, and in it chooses the split tile.
//
//    column    0              tile              32 33       41
//              +--------------+-------------------+----------+
//    left      |    region    |                   |          |
//              +--------------+-------------------+----------+
//    right     |              |      region       |          |
//              +--------------+-------------------+----------+
ghost use Rattle.std.specs.Prelude.{◌≡◌};
ghost use Rattle.split.specs.Region.{scroll_of, side_at, region_at, split_address, after_name};

use crate::VSplit;

// The two tiles fetched ahead belong to the line after.
pub fn scroll_of(line: u16, prefetched: bool, y: u8) -> u16
    ensures { result ≡ scroll_of line prefetched y }
{
    let sum = line as u32 + prefetched as u32 + y as u32;
    (sum % 240) as u16
}

// A line of tiles begins at column 0.
#[tactic(auto, unfolding(crate::specs::Region::side_at))]
fn side_at(v: VSplit, column: u16) -> bool
    ensures { result ≡ side_at v column }
{
    if column == 0 { !v.right } else { v.in_region }
}

// Columns above 32 are no columns of the screen: among them are the fetches made beside those of sprite patterns.
#[tactic(auto, unfolding(crate::specs::Region::region_at))]
fn region_at(v: VSplit, column: u16, first: bool) -> bool
    ensures { result ≡ region_at v column first }
{
    let side = side_at(v, column);
    if (column == v.tile as u16) & first {
        !side
    } else {
        side & (column <= 32)
    }
}

// A row of 32 tiles for each eight lines. Column 32 is no tile of a row: it is or-ed in, not added.
#[tactic(auto, unfolding(crate::specs::Region::split_address))]
fn address_of(scroll: u16, column: u16) -> u16
    ensures { result ≡ split_address scroll column }
{
    ((scroll & 0xF8) << 2) | column
}

#[tactic(auto, unfolding(crate::specs::Region::after_name))]
pub fn moved(v: VSplit, column: u16, first: bool, scroll: u16) -> VSplit
    ensures { result ≡ after_name v column first scroll }
{
    if region_at(v, column, first) {
        VSplit {
            in_region: true,
            tile_addr: address_of(scroll, column),
            ..v
        }
    } else {
        VSplit {
            in_region: false,
            ..v
        }
    }
}
