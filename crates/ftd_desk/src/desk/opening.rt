//! A desk over a database, and its database back.

ghost use Rattle.std.specs.Prelude.{◌≡◌, true, false, IfOk, IfErr};
ghost use Rattle.sqlite.specs.Held.{state};
ghost use Rattle.sqlite.specs.State.{HasCleanDisk};
ghost use Rattle.ftd_machine.specs.State.{State};
ghost use Rattle.ftd_sql.specs.Names.{all_names, has_any};
ghost use Rattle.ftd_setup.specs.Versions.{is_tagged, Opening};
ghost use Rattle.ftd_store.specs.Opened.{IsOver};
ghost use Rattle.ftd_desk.specs.Desks.{store_of, IsStopped, held, Rests, Keeps};
ghost use Rattle.ftd_desk.specs.Opened.{Ended, Opens};

use crate::desk::Desk;
use ftd_setup::UnopenedDatabase;
use ftd_store::Store;
use sqlite::{Alter, Connection};
use std::alloc::Global;

impl<S: Alter> Desk<S> {
    /// Opens a desk over a database. A new database, in which none of the sixteen names is taken,
    /// is given the tables, and one of version 1 or 2 becomes version 3. The desk stands for the
    /// state for which the database's tables stood, over a new database for that in which nothing
    /// was entered. What it lists takes its memory from the allocator. `NotOurs`, `Newer` and
    /// `Store` come as from `ftd_setup::open`, and give the connection back with the rows that it
    /// had.
    pub fn open(alloc: Global, conn: Connection<S>) -> Result<Desk<S>, UnopenedDatabase<S>>
        ensures opens { IfOk result (λ desk. Opens (state S.Store conn) (held S.Store desk)) }
        ensures goes { IfOk result (λ desk. ¬ IsStopped desk) }
        ensures ended { Ended S.Store result (Opening (state S.Store conn)) }
        ensures untouched { has_any all_names (state S.Store conn).now.schema ≡ true
            → is_tagged (state S.Store conn).now.schema ≡ false
            → IfErr result (λ e. e.connection ≡ conn) }
    {
        match ftd_setup::open(conn) {
            Ok(conn) => Ok(Desk::new(alloc, Store::over(conn))),
            Err(refused) => Err(refused),
        }
    }

    /// Closes the desk, and gives its database back. The state for which the desk stood rests in
    /// it.
    pub fn close(self) -> Connection<S>
        ensures over { IsOver (store_of self) result }
        ensures rests { (s : State) → Keeps (held S.Store self) s → Rests (state S.Store result) s }
    {
        self.into_store().close()
    }

    /// Closes the desk, and opens one over its database: it stands for the state for which the desk
    /// stood, and is not stopped. The faults are those of `open`.
    pub fn reopen(self) -> Result<Desk<S>, UnopenedDatabase<S>>
        ensures stands { IfOk result (λ desk. HasCleanDisk (held S.Store desk).db
            → (s : State) → Keeps (held S.Store self) s → Keeps (held S.Store desk) s) }
        ensures goes { IfOk result (λ desk. ¬ IsStopped desk) }
        ensures ended { Ended S.Store result (Opening (held S.Store self).db) }
    {
        let alloc = self.alloc;
        Desk::open(alloc, self.close())
    }
}
