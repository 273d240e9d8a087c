// Why a line was not applied and answered whole.
ghost use Rattle.std.specs.Prelude.{◌≡◌};
ghost use Rattle.faissb_core.specs.declared.runs.fault.Fault.TheVariants.{Memory};

use super::status::Status;
use crate::Stop;
use outside::Trouble;
use std::alloc::AllocError;

#[derive(Clone, Copy, Debug, PartialEq, Eq)]
pub enum Fault {
    Shelf,
    Output,
    Memory,
}

impl From<Stop> for Fault {
    ghost use Rattle.faissb_core.specs.Runs.Faults.{fault_of_stop};

    ghost from_gives = { λ stop fault. fault ≡ fault_of_stop stop };

    fn from(stop: Stop) -> Fault {
        match stop {
            Stop::ShelfFailed => Fault::Shelf,
            Stop::Memory => Fault::Memory,
        }
    }
}

impl From<Trouble> for Fault {
    ghost use Rattle.faissb_core.specs.Runs.Faults.{fault_of_trouble};

    ghost from_gives = { λ trouble fault. fault ≡ fault_of_trouble trouble };

    fn from(trouble: Trouble) -> Fault {
        match trouble {
            Trouble::Failed => Fault::Output,
            Trouble::Memory => Fault::Memory,
        }
    }
}

impl From<AllocError> for Fault {
    ghost from_gives = { λ _ fault. fault ≡ Memory };

    fn from(_: AllocError) -> Fault {
        Fault::Memory
    }
}

impl From<Fault> for Status {
    ghost use Rattle.faissb_core.specs.Runs.Faults.{status_of};

    ghost from_gives = { λ fault status. status ≡ status_of fault };

    fn from(fault: Fault) -> Status {
        match fault {
            Fault::Shelf => Status::ShelfFault,
            Fault::Output => Status::OutputFault,
            Fault::Memory => Status::Memory,
        }
    }
}
