//! How a pool rounds what it reserves.
ghost use Rattle.std.specs.Prelude.{◌≡◌, ◌+◌, ◌*◌, ◌^◌, ◌<◌, ◌≤◌};
ghost use Rattle.vx_pool.specs.Quantum.{quantum, IsUnit};

/// How many bytes are reserved where so many are wanted: more than a step beyond them never, and
/// none where none are wanted.
pub fn quantum(unit: u64, size: u64) -> u64
    requires unit { IsUnit unit }
    requires fits { quantum unit size < 2 ^ 64 }
    ensures is { result ≡ quantum unit size }
    ensures enough { size ≤ result }
    ensures within { result < size + 8 * unit }
{
    if size < 16 * unit {
        return size.next_multiple_of(unit);
    }
    if size < 64 * unit {
        return size.next_multiple_of(4 * unit);
    }
    size.next_multiple_of(8 * unit)
}
