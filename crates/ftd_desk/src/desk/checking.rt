//! A check of the desk's tables.

ghost use Rattle.std.specs.Prelude.{◌≡◌, Err, IfErr, IfOk};
ghost use Rattle.sqlite.specs.State.{HasCleanDisk};
ghost use Rattle.ftd_check.specs.Soundness.{Finds};
ghost use Rattle.ftd_desk.specs.Desks.{IsStopped, held};
ghost use Rattle.ftd_desk.specs.Telling.{StandsAsBefore};
ghost use Rattle.ftd_machine.specs.Runs.{IsFault};
ghost use Rattle.ftd_questions.specs.Walks.{StandIfOpen};
ghost use Rattle.ftd_sql.specs.Standing.{Tables};

use crate::checking;
use crate::desk::Desk;
use ftd_check::Soundness;
use ftd_machine::Refusal;
use sqlite::Alter;

impl<S: Alter> Desk<S> {
    /// Whether the tables are those of a sound state: what requests may have entered, and what
    /// follows from that, and nothing else; how many rows they have then, or the first part of them
    /// that shows that they are not. So of any tables with the columns of the desk's. `Memory` and
    /// `Store` may come in place of it. The tables stay as they are. A desk that is stopped answers
    /// `Store`, and touches nothing.
    pub fn check(&mut self) -> Result<Soundness, Refusal>
        ensures knows { HasCleanDisk (held S.Store self.new).db → (t : Tables)
            → StandIfOpen (held S.Store self.old).db t → IfOk result (λ found. Finds found t) }
        ensures fault { IfErr result (λ refusal. IsFault (Err refusal)) }
        ensures stands { StandsAsBefore (held S.Store self.old) (held S.Store self.new) }
        ensures stopped { IsStopped self.old
            → (result ≡ Err Refusal.Store) × (self.new ≡ self.old) }
    {
        if self.stopped {
            return Err(Refusal::Store);
        }
        checking::check(&mut self.store, self.alloc)
    }
}
