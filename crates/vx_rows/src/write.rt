//! Bytes written over others.
ghost use Rattle.std.specs.Prelude.{◌≡◌, ◌+◌, ◌≤◌, length};
ghost use Rattle.vx_raw.specs.Region.{written};

/// Writes these bytes over those from a place on.
#[inline]
pub(crate) fn write(body: &mut [u8], at: usize, from: &[u8])
    requires { at + length from.now ≤ length body.old }
    ensures is { body.new ≡ written body.old at from.now }
    ensures len { length body.new ≡ length body.old }
{
    body[at..at + from.len()].copy_from_slice(from);
}
