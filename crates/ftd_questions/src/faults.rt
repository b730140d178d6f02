//! Why a due list that is told row by row was not told to its end.

ghost use Rattle.std.specs.Prelude.{◌≡◌};
ghost use Rattle.ftd_questions.specs.Faults.{refusal_of};

use ftd_machine::Refusal;
use ftd_store::StoreFault;
use thiserror::Error;

/// The refusal that a fault of the store is answered with.
pub fn refusal_of(fault: StoreFault) -> Refusal
    ensures { result ≡ refusal_of fault }
{
    match fault {
        StoreFault::Memory => Refusal::Memory,
        StoreFault::Failed => Refusal::Store,
    }
}

/// Why a due list that is told row by row was not told to its end.
#[derive(Clone, Copy, Debug, PartialEq, Eq, Error)]
pub enum DueFault {
    /// The desk refuses it, or there was no memory, or the store failed.
    #[error("{0}")]
    Refused(Refusal),
    /// The sink failed at a row.
    #[error("a row of the due list could not be taken")]
    Sink,
}

impl From<StoreFault> for DueFault {
    ghost use Rattle.ftd_questions.specs.declared.faults.DueFault.TheVariants.{Refused};

    ghost from_gives = { λ fault due. due ≡ Refused (refusal_of fault) };

    fn from(fault: StoreFault) -> DueFault {
        DueFault::Refused(refusal_of(fault))
    }
}
