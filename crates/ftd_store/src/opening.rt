//! A database as a store, and back.

ghost use Rattle.ftd_store.specs.Opened.{IsOver};

use crate::store::Store;
use sqlite::{Alter, Connection};

impl<S: Alter> Store<S> {
    /// The store over a database that `ftd_setup::open` made the desk's, or found to be. Of any
    /// other database nothing is promised but what the clause of each call says.
    pub fn over(conn: Connection<S>) -> Store<S>
        ensures { IsOver result conn }
    {
        Store { conn }
    }

    /// Gives the connection back.
    pub fn close(self) -> Connection<S>
        ensures { IsOver self result }
    {
        let Store { conn } = self;
        conn
    }
}
