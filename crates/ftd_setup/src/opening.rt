//! Making a database the desk's.

ghost use Rattle.std.specs.Prelude.{◌≡◌, true, false, [], IsTrue, IfOk, IfErr, OnOk, OnErr, Err};
ghost use Rattle.sqlite.specs.State.{HasCleanDisk, IsUnchanged, Survives, Shown};
ghost use Rattle.sqlite.specs.Held.{state};
ghost use Rattle.ftd_sql.specs.Names.{all_names, has_any};
ghost use Rattle.ftd_sql.specs.Making.{IsFree};
ghost use Rattle.ftd_sql.specs.States.{CrashKeeps, ShowsAgain};
ghost use Rattle.ftd_sql.specs.declared.texts.TheConstants.{LIST_METAS};
ghost use Rattle.ftd_setup.specs.Ended.{seen_of, Ended};
ghost use Rattle.ftd_setup.specs.Steps.{Steps};
ghost use Rattle.ftd_sql.specs.Beginnings.{IsMade};
ghost use Rattle.ftd_setup.specs.Versions.{IsNew, is_tagged, Becomes, MayBecome, MayBeMigrated};
ghost use Rattle.ftd_setup.specs.Versions.{MayBeOpened, IsStoreFault, OpensByReading, Opening};

use crate::making::{Indexes, make};
use crate::migrating::{migrate_first, migrate_second};
use crate::versions::{is_tagged, told};
use ftd_sql::{AFTER_FIRST, AFTER_SECOND, ALL, has_any, texts};
use ftd_store::StoreFault;
use sqlite::{Alter, Connection, Row, Transaction};
use thiserror::Error;

/// Why a database was not opened.
#[derive(Clone, Copy, Debug, PartialEq, Eq, Error)]
pub enum OpenFault {
    /// The database is not one of the desk's.
    #[error("the database is not a deposit desk's")]
    NotOurs,
    /// The database was made by a later version of the desk.
    #[error("the database has version {0}")]
    Newer(u64),
    /// There was no memory, or the database failed.
    #[error("{0}")]
    Store(StoreFault),
}

impl From<StoreFault> for OpenFault {
    ghost use Rattle.std.specs.Prelude.{◌≡◌};
    ghost use Rattle.ftd_setup.specs.declared.opening.OpenFault.TheVariants.{Store};

    ghost from_gives = { λ fault refused. refused ≡ Store fault };

    fn from(fault: StoreFault) -> OpenFault {
        OpenFault::Store(fault)
    }
}

/// A database that was not opened, with the rows that it had.
#[derive(Drop)]
pub struct UnopenedDatabase<S: Alter> {
    /// The database.
    pub connection: Connection<S>,
    /// Why it was not opened.
    pub fault: OpenFault,
}

/// What is done to a database in one transaction before it is the desk's.
#[derive(Clone, Copy)]
pub(crate) enum Change {
    /// A new database is given the tables.
    Make,
    /// Version 1 becomes version 3.
    MigrateFirst,
    /// Version 2 becomes version 3.
    MigrateSecond,
}

// does so inside a transaction
fn apply<S: Alter>(
    tx: &mut Transaction<'_, S>,
    how: Change,
    indexes: Indexes,
) -> Result<(), StoreFault>
    ensures step { Steps S.Store tx.old tx.new result (λ _ old new. Becomes how old.now new.now) }
{
    match how {
        Change::Make => make(tx, indexes),
        Change::MigrateFirst => migrate_first(tx, indexes),
        Change::MigrateSecond => migrate_second(tx, indexes),
    }
}

/// A database, as it is before it is known to be the desk's.
#[derive(Drop)]
struct Found<S: Alter> {
    conn: Connection<S>,
}

impl<S: Alter> Found<S> {
    // does so in one transaction
    fn carry_out(&mut self, how: Change) -> Result<(), StoreFault>
        ensures done { HasCleanDisk (seen_of S.Store self.new) → OnOk result
            (Becomes how (seen_of S.Store self.old).now (seen_of S.Store self.new).now
            × ((seen_of S.Store self.new).committed ≡ (seen_of S.Store self.new).now)) }
        ensures kept { HasCleanDisk (seen_of S.Store self.new)
            → IsTrue (seen_of S.Store self.new).is_open
            → OnErr result (ShowsAgain (seen_of S.Store self.old) (seen_of S.Store self.new)) }
        ensures crash { Survives (seen_of S.Store self.old) (seen_of S.Store self.new)
            (MayBecome how (seen_of S.Store self.old).now) }
    {
        if !self.conn.is_autocommit() {
            return Err(StoreFault::Failed);
        }
        let indexes = Indexes::free_in(self.conn.schema());
        let mut tx = self.conn.transaction();
        apply(&mut tx, how, indexes)?;
        match tx.commit() {
            Ok(()) => Ok(()),
            Err(error) => Err(StoreFault::from(error)),
        }
    }

    // the rows of ftd_meta
    fn read_tag(&mut self) -> Result<Vec<Row>, StoreFault>
        ensures shown { HasCleanDisk (seen_of S.Store self.new) → IfOk result
            (λ rows. Shown LIST_METAS.now [] (seen_of S.Store self.old)
            (seen_of S.Store self.old) rows.items
            × IsUnchanged (seen_of S.Store self.old) (seen_of S.Store self.new)) }
        ensures kept { HasCleanDisk (seen_of S.Store self.new)
            → IsTrue (seen_of S.Store self.new).is_open
            → ShowsAgain (seen_of S.Store self.old) (seen_of S.Store self.new) }
        ensures crash { CrashKeeps (seen_of S.Store self.old) (seen_of S.Store self.new) }
    {
        if !self.conn.is_autocommit() {
            return Err(StoreFault::Failed);
        }
        match self.conn.query_all(texts::LIST_METAS, &[]) {
            Ok(rows) => Ok(rows),
            Err(error) => Err(StoreFault::from(error)),
        }
    }

    // opens a database that has a tag: version 3 as it is, version 1 or 2 by migration
    fn open_tagged(&mut self) -> Result<(), OpenFault>
        ensures read { HasCleanDisk (seen_of S.Store self.new)
            → OpensByReading (seen_of S.Store self.old) (seen_of S.Store self.new) result }
        ensures kept { HasCleanDisk (seen_of S.Store self.new)
            → IsTrue (seen_of S.Store self.new).is_open
            → OnErr result (ShowsAgain (seen_of S.Store self.old) (seen_of S.Store self.new)) }
        ensures crash { Survives (seen_of S.Store self.old) (seen_of S.Store self.new)
            (MayBeMigrated (seen_of S.Store self.old).now) }
    {
        let rows = self.read_tag()?;
        // whether the name of a table that came after version 1, or after version 2, is taken
        let taken_first = has_any(self.conn.schema(), AFTER_FIRST.as_slice());
        let taken_second = has_any(self.conn.schema(), AFTER_SECOND.as_slice());
        match told(&rows) {
            Some(3) => Ok(()),
            Some(1) if !taken_first => {
                self.carry_out(Change::MigrateFirst)?;
                Ok(())
            }
            Some(2) if !taken_second => {
                self.carry_out(Change::MigrateSecond)?;
                Ok(())
            }
            Some(version) if version > 3 => Err(OpenFault::Newer(version)),
            _ => Err(OpenFault::NotOurs),
        }
    }

    fn prepare(&mut self) -> Result<(), OpenFault>
        ensures new_database { IsNew (seen_of S.Store self.old).now.schema
            → HasCleanDisk (seen_of S.Store self.new)
            → OnOk result (IsFree (seen_of S.Store self.old).now.schema
            → IsMade (seen_of S.Store self.old).now (seen_of S.Store self.new).now
            × ((seen_of S.Store self.new).committed ≡ (seen_of S.Store self.new).now)) }
        ensures never_refused { IsNew (seen_of S.Store self.old).now.schema
            → IfErr result IsStoreFault }
        ensures foreign { has_any all_names (seen_of S.Store self.old).now.schema ≡ true
            → is_tagged (seen_of S.Store self.old).now.schema ≡ false
            → (result ≡ Err OpenFault.NotOurs) × (self.new ≡ self.old) }
        ensures read { is_tagged (seen_of S.Store self.old).now.schema ≡ true
            → HasCleanDisk (seen_of S.Store self.new)
            → OpensByReading (seen_of S.Store self.old) (seen_of S.Store self.new) result }
        ensures kept { HasCleanDisk (seen_of S.Store self.new)
            → IsTrue (seen_of S.Store self.new).is_open
            → OnErr result (ShowsAgain (seen_of S.Store self.old) (seen_of S.Store self.new)) }
        ensures crash { Survives (seen_of S.Store self.old) (seen_of S.Store self.new)
            (MayBeOpened (seen_of S.Store self.old).now) }
    {
        if is_tagged(self.conn.schema()) {
            return self.open_tagged();
        }
        if has_any(self.conn.schema(), ALL.as_slice()) {
            return Err(OpenFault::NotOurs);
        }
        self.carry_out(Change::Make)?;
        Ok(())
    }
}

/// Makes a database the desk's, or finds that it is.
///
/// Where none of the sixteen names is taken by a table, a view or an index, the sixteen tables are
/// made in one transaction, with the tag (`ftd`, 3) and, where nothing has their names, two indexes
/// by day. Where ftd_meta has exactly one row, with the tag `ftd`: version 3 is opened as it is;
/// version 1 and version 2 become version 3 in one transaction, version 1 with every account on
/// Form 941, or are `NotOurs` where the name of a table that came later is taken; a greater version
/// is `Newer`. All else is `NotOurs`. `Store` where memory is refused, where the database fails,
/// and where it is in a transaction. A fault gives the connection back with the same rows. Tables
/// of other names are left alone.
pub fn open<S: Alter>(conn: Connection<S>) -> Result<Connection<S>, UnopenedDatabase<S>>
    ensures ended { Ended S.Store result (Opening (state S.Store conn)) }
    ensures untouched { has_any all_names (state S.Store conn).now.schema ≡ true
        → is_tagged (state S.Store conn).now.schema ≡ false
        → IfErr result (λ e. e.connection ≡ conn) }
{
    let mut found = Found { conn };
    match found.prepare() {
        Ok(()) => {
            let Found { conn } = found;
            Ok(conn)
        }
        Err(fault) => {
            let Found { conn: connection } = found;
            Err(UnopenedDatabase { connection, fault })
        }
    }
}
