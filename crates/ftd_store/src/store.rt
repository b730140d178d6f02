//! The database, and how a transaction begins and ends.

ghost use Rattle.std.specs.Prelude.{◌≡◌, false, IsTrue, IfOk, OnOk, OnErr};
ghost use Rattle.std.specs.Borrow.{sem};
ghost use Rattle.sqlite.specs.State.{HasCleanDisk, KeepsCommit, Survives, Shows};
ghost use Rattle.ftd_sql.specs.States.{CrashKeeps};
ghost use Rattle.ftd_store.specs.Seen.{seen, shown};
ghost use Rattle.ftd_store.specs.Frame.{HasFailed, Borrows};
ghost use Rattle.ftd_store.specs.Ends.{Begins, LeavesRows, EndsAs, CrashLeaves};

use crate::StoreFault;
use crate::tx::Tx;
use sqlite::{Alter, Connection};

/// The desk's tables.
#[derive(Drop)]
pub struct Store<S: Alter> {
    pub(crate) conn: Connection<S>,
}

impl<S: Alter> Store<S> {
    ghost use Rattle.ftd_store.specs.Lending.{store_rests};

    fn start(&mut self) -> Result<(), StoreFault>
        ensures begun { HasCleanDisk (seen S.Store self.new)
            → OnOk result (Begins (seen S.Store self.old) (seen S.Store self.new)) }
        ensures err { HasCleanDisk (seen S.Store self.new) → OnErr result (LeavesRows
            (seen S.Store self.old) (seen S.Store self.new)) }
        ensures crash { CrashKeeps (seen S.Store self.old) (seen S.Store self.new) }
    {
        if !self.conn.is_autocommit() {
            return Err(StoreFault::Failed);
        }
        self.conn.execute("BEGIN", &[])?;
        Ok(())
    }

    pub(crate) fn undo(&mut self)
        ensures undone { HasCleanDisk (seen S.Store self.new)
            → IsTrue (seen S.Store self.new).is_open → EndsAs (seen S.Store self.new)
            (seen S.Store self.old).committed }
        ensures rests { (seen S.Store self.old).in_transaction ≡ false → self.new ≡ self.old }
        ensures crash { CrashKeeps (seen S.Store self.old) (seen S.Store self.new) }
        ensures opens { HasCleanDisk (seen S.Store self.new)
            → IsTrue (seen S.Store self.new).is_open → IsTrue (seen S.Store self.old).is_open }
    {
        if self.conn.is_autocommit() {
            return;
        }
        let _ = self.conn.execute("ROLLBACK", &[]);
    }

    pub(crate) fn finish(&mut self) -> Result<(), StoreFault>
        ensures ok { HasCleanDisk (seen S.Store self.new) → OnOk result (Shows
            (seen S.Store self.old) (seen S.Store self.new) (seen S.Store self.old).now
            (seen S.Store self.old).now false) }
        ensures lasts { HasCleanDisk (seen S.Store self.new)
            → OnOk result (CrashLeaves (seen S.Store self.new) (seen S.Store self.old).now) }
        ensures kept { HasCleanDisk (seen S.Store self.new) → OnErr result (KeepsCommit
            (seen S.Store self.old) (seen S.Store self.new)) }
        ensures crash { Survives (seen S.Store self.old) (seen S.Store self.new) (λ left. left ≡
            (seen S.Store self.old).now.trees) }
    {
        self.conn.execute("COMMIT", &[])?;
        Ok(())
    }

    /// Begins a transaction over the rows of the last commit. A fault, also where a transaction is
    /// under way, leaves the rows as they are, and what a crash would leave.
    pub fn begin(&mut self) -> Result<Tx<'_, S>, StoreFault>
        ensures* rests { sem 𝓛 (store_rests S.row S.Store self.entry result) }
        ensures same_reference { IfOk result (λ tx. Borrows tx self.entry) }
        ensures begun { IfOk result (λ tx. HasCleanDisk (shown S.Store tx)
            → Begins (seen S.Store self.old) (shown S.Store tx)) }
        ensures sound { IfOk result (λ tx. ¬ HasFailed tx) }
        ensures crash { IfOk result (λ tx. CrashKeeps (seen S.Store self.old) (shown S.Store tx)) }
    {
        self.start()?;
        Ok(Tx {
            store: self,
            failed: false,
        })
    }
}
