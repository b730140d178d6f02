//! Why `plain` prints no deposits.

use ftd_csv::RecordFault;
use ftd_days::CalendarFault;
use std::alloc::{AllocError, AllocFailed};
use std::error::Error;
use std::fmt;

/// Why `plain` prints no deposits. Where several stand, the first of `TooLong`, `BadCalendar` and
/// `BadHeader` is answered, and else that of the first record at fault; `Memory` may come at any
/// point.
#[derive(Clone, Copy, Debug, PartialEq, Eq)]
pub enum PlainFault {
    /// The first record is not `employer,run,payday,fit,ss,medicare`.
    BadHeader,
    /// The text has more than 16 MiB, which are 16,777,216 bytes.
    TooLong,
    /// The record of this number, the header being 1, has other than six fields (field 0), or this
    /// is the least of its fields that is bad.
    Malformed { number: u32, field: u8 },
    /// The number of this run of the account came before with other content.
    RunDiffers(u32),
    /// A run brings the 20,001st number.
    TooManyRuns,
    /// The holidays don't rise, don't all lie in the year or the next, or are more than 60 for one.
    BadCalendar,
    /// Out of memory.
    Memory,
}

/// The text that is printed on standard error, without the line's end.
impl fmt::Display for PlainFault {
    ghost use Rattle.std.specs.Prelude.{Some};
    ghost use Rattle.ftd_plain.specs.Faults.{fault_text};

    ghost output = { λ fault. Some (fault_text fault) };

    fn fmt<W: fmt::Write>(&self, f: &mut fmt::Formatter<W>) -> fmt::Result {
        match *self {
            PlainFault::BadHeader => f.write_str("refused header"),
            PlainFault::TooLong => f.write_str("refused length"),
            PlainFault::Malformed { number, field } => {
                write!(f, "record {number} malformed field {field}")
            }
            PlainFault::RunDiffers(number) => write!(f, "run {number} differs"),
            PlainFault::TooManyRuns => f.write_str("refused 19 TooManyRuns"),
            PlainFault::BadCalendar => f.write_str("refused 5 BadCalendar"),
            PlainFault::Memory => f.write_str("failed 21 Memory"),
        }
    }
}

impl Error for PlainFault {}

impl From<AllocError> for PlainFault {
    ghost use Rattle.std.specs.Prelude.{◌≡◌};
    ghost use Rattle.ftd_plain.specs.declared.fault.PlainFault.TheVariants.{Memory};

    ghost from_gives = { λ _ e. e ≡ Memory };

    fn from(_: AllocError) -> PlainFault {
        PlainFault::Memory
    }
}

impl<T: Drop> From<AllocFailed<T>> for PlainFault {
    ghost use Rattle.std.specs.Prelude.{◌≡◌};
    ghost use Rattle.ftd_plain.specs.declared.fault.PlainFault.TheVariants.{Memory};

    ghost from_gives = { λ _ e. e ≡ Memory };

    fn from(_: AllocFailed<T>) -> PlainFault {
        PlainFault::Memory
    }
}

impl From<RecordFault> for PlainFault {
    ghost use Rattle.std.specs.Prelude.{◌≡◌};
    ghost use Rattle.ftd_plain.specs.Faults.{text_fault};

    ghost from_gives = { λ fault e. e ≡ text_fault fault };

    fn from(fault: RecordFault) -> PlainFault {
        match fault {
            RecordFault::BadHeader => PlainFault::BadHeader,
            RecordFault::TooLong => PlainFault::TooLong,
            RecordFault::Memory => PlainFault::Memory,
        }
    }
}

impl From<CalendarFault> for PlainFault {
    ghost use Rattle.std.specs.Prelude.{◌≡◌};
    ghost use Rattle.ftd_plain.specs.Faults.{plain_fault};

    ghost from_gives = { λ fault e. e ≡ plain_fault fault };

    fn from(fault: CalendarFault) -> PlainFault {
        match fault {
            CalendarFault::BadCalendar => PlainFault::BadCalendar,
            CalendarFault::Memory => PlainFault::Memory,
        }
    }
}
