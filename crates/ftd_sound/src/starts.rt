//! The first days of an account.

ghost use Rattle.std.specs.Prelude.{◌≡◌};
ghost use Rattle.ftd_machine.specs.State.{in_force};
ghost use Rattle.ftd_sound.specs.Private.Plain.{starts_in_range};

use ftd_days::{Day, LAST_OPEN_YEAR};
use ftd_machine::{Account, Beginning};

/// The account as it is in force: it begins as it was put right last.
pub(crate) fn in_force(moves: &[Beginning], account: Account) -> Account
    ensures { result ≡ in_force moves.now account }
{
    match moves.last() {
        Some(beginning) => Account {
            start: beginning.start,
            carried: beginning.carried,
            form: account.form,
        },
        None => account,
    }
}

/// Whether the first day is one not after 2098.
pub(crate) fn starts_in_range(start: Day) -> bool
    ensures { result ≡ starts_in_range start }
{
    start.year() <= LAST_OPEN_YEAR
}
