// The regions of the map: one constant table, and the region that an address belongs to.
#![tactic(auto)]

ghost use Rattle.std.specs.Prelude.{◌≡◌, ◌+◌, ◌<◌};
ghost use Rattle.map.specs.Map.{region_of, scan, found_in};
ghost use Rattle.regions.specs.Once.{once, base_of, raised_to};

use map::Access::{Read as R, ReadWrite as RW, Write as W};
use map::{Access, Region};

// The region that an address belongs to: the row that holds its offset from its base, raised to that base.
#[tactic(auto, using(crate::proofs::Once::base_within, crate::proofs::Once::same_regions))]
pub fn region_of(address: u16) -> Option<Region>
    ensures { result ≡ region_of address }
{
    let base = base_of(address);
    find(base, address - base)
}

// The base that an address is counted from: its channel's, and 0 from 0x4000 up, where the rows stand at their own addresses.
fn base_of(address: u16) -> u16
    ensures { result ≡ base_of address }
{
    if address < 0x4000 {
        address / 0x1000 * 0x1000
    } else {
        0
    }
}

// The row that holds an offset, raised to a base. The rows are in order: it can only be the first that does not end before the offset.
// The first look is at row 0, the ramp tables, where most words go.
fn find(base: u16, offset: u16) -> Option<Region>
    requires { base < 0x4000 }
    ensures { result ≡ raised_to base (found_in (scan once offset)) }
{
    let rows: &[Row] = &REGIONS;
    let tables = rows[0];
    if offset <= tables.1 {
        return Some(region(base, tables));
    }
    let row = *rows.get(rows.partition_point(|r| r.1 < offset))?;
    if offset < row.0 {
        return None;
    }
    Some(region(base, row))
}

// A row's region, raised to a base.
fn region(base: u16, row: Row) -> Region
    requires row_bound { base + row.0 < 65536 }
    requires row_bound_2 { base + row.1 < 65536 }
    ensures { result ≡ record { first = base + row.0; last = base + row.1; access = row.2 } }
{
    Region {
        first: base + row.0,
        last: base + row.1,
        access: row.2,
    }
}

// First address, last address, access. A row of the table stays on one line, as it would not with named fields.
#[derive(Clone, Copy)]
struct Row(u16, u16, Access);

// The rows of the paper's table, each once: a channel's, counted from its base, and the card's own.
const REGIONS: [Row; 28] = [
    Row(0x000, 0x7FF, RW),
    Row(0x800, 0x81F, RW),
    Row(0x840, 0x85F, RW),
    Row(0x860, 0x87F, RW),
    Row(0x880, 0x89F, RW),
    Row(0x8A0, 0x8BF, RW),
    Row(0x8E0, 0x8FF, RW),
    Row(0x900, 0x91F, RW),
    Row(0x920, 0x93F, RW),
    Row(0x940, 0x95F, RW),
    Row(0x960, 0x97F, RW),
    Row(0xA00, 0xA00, RW),
    Row(0xA01, 0xA01, RW),
    Row(0xA04, 0xA04, RW),
    Row(0xA30, 0xA30, R),
    Row(0xA31, 0xA31, R),
    Row(0xA32, 0xA32, R),
    Row(0xA33, 0xA33, R),
    Row(0xA34, 0xA34, R),
    Row(0xA39, 0xA39, RW),
    Row(0x4000, 0x40FF, RW),
    Row(0x4100, 0x41FF, R),
    Row(0x4200, 0x4200, RW),
    Row(0x4201, 0x4201, W),
    Row(0x4202, 0x4202, W),
    Row(0x4210, 0x4210, R),
    Row(0x4211, 0x4211, R),
    Row(0x4220, 0x423F, RW),
];
