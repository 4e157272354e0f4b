// Why an answer stopped short.
ghost use Rattle.std.specs.Prelude.{◌≡◌};

use av_io::SinkFault;
use av_perm::Memory;

/// Why the text due wasn't written whole.
#[derive(Clone, Copy, Debug, PartialEq, Eq)]
pub enum Stop {
    Memory,
    WriteFault,
}

impl From<SinkFault> for Stop {
    ghost use Rattle.av_session.specs.Stops.{stop_of};

    ghost from_gives = { λ fault stop. stop ≡ stop_of fault };

    fn from(fault: SinkFault) -> Stop {
        match fault {
            SinkFault::Failed => Stop::WriteFault,
            SinkFault::Memory => Stop::Memory,
        }
    }
}

impl From<Memory> for Stop {
    ghost use Rattle.av_session.specs.declared.stop.Stop.TheVariants as stop;

    ghost from_gives = { λ _ reason. reason ≡ stop.Memory };

    fn from(_error: Memory) -> Stop {
        Stop::Memory
    }
}
