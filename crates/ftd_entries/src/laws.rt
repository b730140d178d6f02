//! What a database stands for once it is opened: each function's contract is a law, its body is
//! empty.

ghost use Rattle.std.specs.Prelude.{◌≡◌, ℕ, false};
ghost use Rattle.sqlite.specs.Effect.{Database};
ghost use Rattle.sqlite.specs.Does.{lacks_sequence};
ghost use Rattle.ftd_sql.specs.Standing.{Tables, StandsAs};
ghost use Rattle.ftd_sql.specs.Beginnings.{IsEarlier, IsMade, IsMigrated};
ghost use Rattle.ftd_machine.specs.State.{State, nothing};
ghost use Rattle.ftd_machine.specs.Sound.{IsSound};
ghost use Rattle.ftd_entries.specs.Standing.{StandsForEarlier};
ghost use Rattle.ftd_entries.specs.Words.{IsKept};

/// A database in which the tables were made stands for a desk to which nothing was entered.
#[tactic(auto, using(crate::proofs::Ends::made_stands))]
pub fn new_tables_stand_for_nothing()
    ensures { (old new : Database) → IsMade old new → IsKept new nothing }
{}

/// A database of an earlier version that was migrated stands for the state that it stood for. The
/// last premise leaves out databases that count rows (AUTOINCREMENT) and have lost the table of
/// counts.
pub fn migrated_tables_stand_for_the_same()
    ensures { (old new : Database) (version : ℕ) (before : Tables) (s : State)
        → IsMigrated old new → IsEarlier version
        → StandsAs version old before → StandsForEarlier version before s → IsSound s
        → lacks_sequence old.schema ≡ false → IsKept new s }
{}
