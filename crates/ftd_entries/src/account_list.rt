//! All accounts, as they are in force.

ghost use Rattle.std.specs.Prelude.{◌≡◌, ◌++◌, ◌∷◌, [], OnOk};
ghost use Rattle.std.specs.List.{list_all};
ghost use Rattle.ftd_rules.specs.Lists.{are_in_order};
ghost use Rattle.ftd_store.specs.Frame.{Reads};
ghost use Rattle.ftd_entries.specs.Accounts.{AreToldAccounts, KnowsAccounts, is_account_before};
ghost use Rattle.ftd_entries.specs.Accounts.{has_account_name, kept_account};

use crate::known_account;
use ftd_machine::{Account, AccountName, KeptAccount};
use ftd_rules::is_account_name;
use ftd_store::{StoreFault, Tx};
use sqlite::Alter;
use std::alloc::Global;

/// Whether each has the name of an account.
fn are_account_names(accounts: &[KeptAccount]) -> bool
    ensures { result ≡ list_all has_account_name accounts.now }
{
    accounts.iter().all(|account| is_account_name(account.name.as_str().as_bytes()))
}

/// Whether an account comes before another one, by its name's bytes.
fn is_account_before(account: &KeptAccount, next: &KeptAccount) -> bool
    ensures { result ≡ is_account_before account.now next.now }
{
    account.name.as_str() < next.name.as_str()
}

/// Whether each account comes before the next.
fn are_accounts_in_order(accounts: &[KeptAccount]) -> bool
    ensures { result ≡ are_in_order is_account_before accounts.now }
{
    accounts
        .iter()
        .zip(accounts.iter().skip(1))
        .all(|(account, next)| is_account_before(account, next))
}

/// Adds an account, as it is told. `Memory` where there was none.
fn add_account(
    alloc: Global,
    name: &str,
    account: Account,
    rows: &mut Vec<KeptAccount>,
) -> Result<(), StoreFault>
    ensures { OnOk result
        (rows.new.items ≡ rows.old.items ++ kept_account name.now account ∷ []) }
{
    let name = String::from_str(alloc, name)?;
    let name = AccountName::from_string(name);
    rows.push(KeptAccount { name, account })?;
    Ok(())
}

/// All accounts as they are in force, in the order of their rows. `Failed` also where one has no
/// form.
fn accounts_in_force<S: Alter>(
    tx: &mut Tx<'_, S>,
    alloc: Global,
) -> Result<Vec<KeptAccount>, StoreFault>
    ensures call { Reads S.Store tx.old tx.new result (λ rows. AreToldAccounts rows.items) }
{
    let named = tx.all_accounts(alloc)?;
    let mut rows: Vec<KeptAccount> = Vec::new(alloc);
    for row in &named {
        let Some(account) = known_account(tx, alloc, &row.name)? else {
            return tx.give_up(StoreFault::Failed);
        };
        if let Err(fault) = add_account(alloc, &row.name, account, &mut rows) {
            return tx.give_up(fault);
        }
    }
    Ok(rows)
}

/// All accounts as they are in force, by name: those of the table's rows, whatever else the tables
/// hold. `Failed` also where one has no form, where one has a name that is none of an account, and
/// where they do not go on by name.
pub fn all_accounts<S: Alter>(
    tx: &mut Tx<'_, S>,
    alloc: Global,
) -> Result<Vec<KeptAccount>, StoreFault>
    ensures call { Reads S.Store tx.old tx.new result (λ rows. KnowsAccounts rows.items) }
{
    let rows = accounts_in_force(tx, alloc)?;
    if !are_account_names(&rows) {
        return tx.give_up(StoreFault::Failed);
    }
    if !are_accounts_in_order(&rows) {
        return tx.give_up(StoreFault::Failed);
    }
    Ok(rows)
}
