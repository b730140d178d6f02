//! The due list told row by row.

ghost use Rattle.std.specs.Prelude.{◌≡◌, true, Err, OnOk};
ghost use Rattle.sqlite.specs.State.{HasCleanDisk};
ghost use Rattle.ftd_machine.specs.State.{State};
ghost use Rattle.ftd_questions.specs.Telling.{Tells, TakesShown};
ghost use Rattle.ftd_questions.specs.Walks.{StandIfOpen};
ghost use Rattle.ftd_sql.specs.Standing.{Tables};
ghost use Rattle.ftd_desk.specs.Desks.{IsStopped, held, KeepsIfOpen};
ghost use Rattle.ftd_desk.specs.Telling.{StandsAsBefore};

use crate::desk::Desk;
use ftd_days::{Day, Quarter};
use ftd_machine::Refusal;
use ftd_questions::DueFault;
use ftd_rules::DueSink;
use sqlite::Alter;

impl<S: Alter> Desk<S> {
    /// Tells the account's due list of the quarter as of a day row by row: the sink is given the
    /// rows of the reply to `DueList`, one after the other, and no list of them is held. `Refused`
    /// with the refusal of `DueList`, and no row is told then; `Refused` with `Memory` or `Store`
    /// may come at any row; `Sink` where the sink failed at a row. With Ok the rows are those of
    /// the tables as they stand, whatever else these hold. The tables stay as they are. A desk that
    /// is stopped answers `Refused` with `Store`, and touches nothing.
    pub fn due_into<K: DueSink>(
        &mut self,
        account: &str,
        quarter: Quarter,
        as_of: Day,
        sink: &mut K,
    ) -> Result<(), DueFault>
        ensures tells { HasCleanDisk (held S.Store self.new).db
            → (s : State) → KeepsIfOpen (held S.Store self.old) s
            → Tells K.took K.broke s account.now quarter as_of sink.old sink.new result }
        ensures shows { HasCleanDisk (held S.Store self.new).db → OnOk result ((t : Tables)
            → StandIfOpen (held S.Store self.old).db t
            → TakesShown K.took account.now quarter sink.old sink.new t) }
        ensures failed { result ≡ Err DueFault.Sink → K.failed sink.new ≡ true }
        ensures stands { StandsAsBefore (held S.Store self.old) (held S.Store self.new) }
        ensures goes { IsStopped self.new → IsStopped self.old }
        ensures stopped { IsStopped self.old
            → (result ≡ Err (DueFault.Refused Refusal.Store))
            × (self.new ≡ self.old) × (sink.new ≡ sink.old) }
    {
        if self.stopped {
            return Err(DueFault::Refused(Refusal::Store));
        }
        ftd_questions::due_into(&mut self.store, self.alloc, account, quarter, as_of, sink)
    }
}
