//! A whole piece given to a sink that takes it in parts.
ghost use Rattle.std.specs.Prelude.{◌≡◌, OnErr, OnOk};
ghost use Rattle.vx_base.specs.Causes.{HasCause};
ghost use Rattle.vx_base.specs.Told.{gained};
ghost use Rattle.vx_host.specs.Sink.{GainsPart, StaysUnfailing};
ghost use Rattle.vx_host.specs.Host.{WritesOnly};

use crate::error::SinkError;
use crate::host::{Host, To};

/// Gives a sink the whole piece: what it didn't take is given again.
///
/// After an error the sink has taken a front of the piece, maybe nothing, and never the whole.
pub fn give_all<H: Host>(host: &mut H, to: To, piece: &[u8]) -> Result<(), SinkError>
    ensures ok { OnOk result ((H.sink host.new to).taken ≡ gained (H.sink host.old to).taken piece.now) }
    ensures err { OnErr result (GainsPart (H.sink host.old to).taken (H.sink host.new to).taken piece.now) }
    ensures cause { HasCause (λ e. e ≡ SinkError.Failed) (H.sink host.old to).faults (H.sink host.new to).faults result }
    ensures wanted { HasCause (λ e. e ≡ SinkError.NoMemory) (H.sink host.old to).wants (H.sink host.new to).wants result }
    ensures unfailing { StaysUnfailing (H.sink host.old to) (H.sink host.new to) result }
    ensures others { WritesOnly H.files H.sink to host.old host.new }
{
    let mut rest = piece;
    while !rest.is_empty() {
        let count = host.write(to, rest)?;
        rest = &rest[count..];
    }
    Ok(())
}
