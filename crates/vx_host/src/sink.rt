//! Sinks, which take bytes: the contract.
ghost use Rattle.std.specs.Prelude.{◌≡◌, ◌<◌, ◌-◌, IfOk, OnErr};
ghost use Rattle.vx_base.specs.Causes.{HasCause};
ghost use Rattle.vx_host.specs.Views.{SinkView};
ghost use Rattle.vx_host.specs.Sink.{Takes, StaysUnfailing};

use crate::error::SinkError;

/// Takes bytes, maybe fewer than it is given.
///
/// After an error nothing more was taken.
pub trait Sink {
    /// What the sink has taken, its counts, and whether a call is still to fail.
    ghost state: { Self → SinkView };

    /// Takes the first bytes of the piece, at least one where there is one, and answers how many.
    fn write(&mut self, piece: &[u8]) -> Result<usize, SinkError>
        ensures ok { IfOk result (Takes (state self.old) (state self.new) piece.now) }
        ensures err { OnErr result ((state self.new).taken ≡ (state self.old).taken) }
        ensures cause { HasCause (λ e. e ≡ SinkError.Failed) (state self.old).faults (state self.new).faults result }
        ensures wanted { HasCause (λ e. e ≡ SinkError.NoMemory) (state self.old).wants (state self.new).wants result }
        ensures unfailing { StaysUnfailing (state self.old) (state self.new) result };

    /// How many calls have failed; it stays at the last `u64`.
    fn faults(&self) -> u64
        ensures { result ≡ (state self.now).faults };

    /// How many calls wanted memory; it stays at the last `u64`.
    fn wants(&self) -> u64
        ensures { result ≡ (state self.now).wants };
}
