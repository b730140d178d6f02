//! Accounts are enrolled.

ghost use Rattle.std.specs.Prelude.{◌≡◌};
ghost use Rattle.ftd_store.specs.Seen.{shown};
ghost use Rattle.ftd_store.specs.Frame.{Calls, Reads, Writes};
ghost use Rattle.ftd_entries.specs.Known.{KnowsAccount, KnowsEnrolled, HasForm, joined};
ghost use Rattle.ftd_entries.specs.Known.{with_enrolled};
ghost use Rattle.ftd_machine.specs.declared.requests.Request.TheVariants.{Enter};
ghost use Rattle.ftd_machine.specs.declared.requests.Entry.TheVariants as entry;
ghost use Rattle.ftd_entries.specs.Words.{Serves};

use ftd_days::Day;
use ftd_machine::{Account, Answer, Reply, enrol_check};
use ftd_rules::Form;
use ftd_store::{StoreFault, Tx};
use sqlite::Alter;
use std::alloc::Global;

/// As what an account was enrolled: its first day and whether it was carried, and its form.
pub fn enrolment<S: Alter>(tx: &mut Tx<'_, S>, name: &str) -> Result<Option<Account>, StoreFault>
    ensures call { Reads S.Store tx.old tx.new result (KnowsEnrolled name.now) }
    ensures form { Reads S.Store tx.old tx.new result (HasForm name.now) }
{
    let found = tx.account(name)?;
    let form = tx.form(name)?;
    Ok(joined(found, form))
}

/// What is in force of an account: its first day and whether it was carried, as they were put right
/// last, and its form.
pub fn known_account<S: Alter>(
    tx: &mut Tx<'_, S>,
    alloc: Global,
    name: &str,
) -> Result<Option<Account>, StoreFault>
    ensures call { Reads S.Store tx.old tx.new result (KnowsAccount name.now) }
    ensures form { Reads S.Store tx.old tx.new result (HasForm name.now) }
{
    let found = tx.account_in_force(alloc, name)?;
    let form = tx.form(name)?;
    Ok(joined(found, form))
}

/// The account that has these rows. None where it has none.
fn joined(found: Option<ftd_store::Account>, form: Option<Form>) -> Option<Account>
    ensures { result ≡ joined found form }
{
    let found = found?;
    Some(Account {
        start: found.start,
        carried: found.carried,
        form: form?,
    })
}

/// Enrols an account.
pub fn enrol<S: Alter>(
    tx: &mut Tx<'_, S>,
    name: &str,
    account: Account,
) -> Result<Answer, StoreFault>
    ensures call { Calls S.Store tx.old tx.new result
        (Serves (Enter (entry.Account name.now account))) }
{
    let known = enrolment(tx, name)?;
    if let Err(answer) = enrol_check(name, &account, known) {
        return Ok(answer);
    }
    add(tx, name, account)?;
    Ok(Ok(Reply::Done))
}

/// Adds an account and its form.
fn add<S: Alter>(tx: &mut Tx<'_, S>, name: &str, account: Account) -> Result<(), StoreFault>
    ensures call { Writes S.Store tx.old tx.new result (with_enrolled name.now account) }
{
    let row = ftd_store::Account {
        start: account.start,
        carried: account.carried,
    };
    tx.add_account(name, row)?;
    tx.add_form(name, account.form)?;
    Ok(())
}
