//! Why the values of a subcommand ask nothing.

use crate::Word;
use ftd_verbs::FieldFault;
use std::alloc::{AllocError, AllocFailed};

/// Why the values of a subcommand ask nothing.
#[derive(Clone, Copy, Debug, PartialEq, Eq)]
pub enum WordFault {
    /// The first word whose value is none of its kind.
    BadWord(Word),
    /// The words name no subcommand. `clap` refuses such words before.
    NoCommand,
    /// Out of memory.
    Memory,
}

impl From<AllocError> for WordFault {
    ghost use Rattle.std.specs.Prelude.{◌≡◌};
    ghost use Rattle.ftd_cli.specs.declared.fault.WordFault.TheVariants.{Memory};

    ghost from_gives = { λ _ e. e ≡ Memory };

    fn from(_: AllocError) -> WordFault {
        WordFault::Memory
    }
}

impl<T: Drop> From<AllocFailed<T>> for WordFault {
    ghost use Rattle.std.specs.Prelude.{◌≡◌};
    ghost use Rattle.ftd_cli.specs.declared.fault.WordFault.TheVariants.{Memory};

    ghost from_gives = { λ _ e. e ≡ Memory };

    fn from(_: AllocFailed<T>) -> WordFault {
        WordFault::Memory
    }
}

impl From<FieldFault> for WordFault {
    ghost use Rattle.std.specs.Prelude.{◌≡◌};
    ghost use Rattle.ftd_cli.specs.Words.{word_fault};

    ghost from_gives = { λ fault e. e ≡ word_fault fault };

    fn from(fault: FieldFault) -> WordFault {
        match fault {
            FieldFault::Bad(field) => WordFault::BadWord(Word::Field(field)),
            FieldFault::Memory => WordFault::Memory,
        }
    }
}
