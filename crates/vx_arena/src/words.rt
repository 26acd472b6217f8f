//! Numbers as the bytes in which blocks spell them.
ghost use Rattle.std.specs.Prelude.{◌≡◌, ◌++◌, drop, if◌then◌else◌};
ghost use Rattle.std.specs.Int.{w32, w64, to_le_bytes, from_le_bytes};
ghost use Rattle.vx_raw.specs.Region.{IsInside, chunk_at};

use vx_raw::{Place, Region};

/// The number of 4 bytes that stands there.
pub(crate) fn word(region: &Region, at: Place) -> u32
    requires { IsInside region.now at 4 }
    ensures { result ≡ from_le_bytes w32 (drop at.at (chunk_at region.now at.chunk)) }
{
    let bytes = region.bytes(at, 4);
    u32::from_le_bytes([bytes[0], bytes[1], bytes[2], bytes[3]])
}

/// The 4 bytes that say whether a block is live.
pub(crate) fn flag(live: bool) -> [u8; 4]
    ensures { result ≡ to_le_bytes w32 (if live then 1 else 0) }
{
    u32::from(live).to_le_bytes()
}

/// The head of a block.
pub(crate) fn head(len: u32, live: bool) -> [u8; 8]
    ensures { result ≡ to_le_bytes w32 len ++ to_le_bytes w32 (if live then 1 else 0) }
{
    let count = len.to_le_bytes();
    let flag = flag(live);
    [
        count[0], count[1], count[2], count[3], flag[0], flag[1], flag[2], flag[3],
    ]
}

/// Two links.
pub(crate) fn pair(next: u64, before: u64) -> [u8; 16]
    ensures { result ≡ to_le_bytes w64 next ++ to_le_bytes w64 before }
{
    let (a, b) = (next.to_le_bytes(), before.to_le_bytes());
    [
        a[0], a[1], a[2], a[3], a[4], a[5], a[6], a[7], b[0], b[1], b[2], b[3], b[4], b[5], b[6],
        b[7],
    ]
}
