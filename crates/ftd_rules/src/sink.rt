//! Where the rows of a due list go, one after the other.

ghost use Rattle.std.specs.Prelude.{◌≡◌, Bool, true, OnOk, OnErr};
ghost use Rattle.ftd_rules.specs.declared.verdict.DueRow.{DueRow};

use crate::DueRow;
use thiserror::Error;

/// A sink failed at a row.
#[derive(Clone, Copy, Debug, PartialEq, Eq, Error)]
#[error("a row of the due list could not be taken")]
pub struct SinkFault;

/// Takes the rows of a due list one after the other, by first day.
pub trait DueSink {
    /// What the sink is, before and after, where it took the row.
    ghost took: { Self → DueRow → Self → Type 0 };

    /// What the sink is, before and after, where it failed at the row.
    ghost broke: { Self → DueRow → Self → Type 0 };

    /// Whether it has failed at a row.
    ghost failed: { Self → Bool };

    /// Takes the next row, or fails.
    fn row(&mut self, row: &DueRow) -> Result<(), SinkFault>
        ensures took { OnOk result (took self.old row.now self.new) }
        ensures broke { OnErr result (broke self.old row.now self.new) }
        ensures failed { OnErr result (failed self.new ≡ true) };
}
