//! How the records of an import change the obligations of accounts.

ghost use Rattle.std.specs.Prelude.{◌≡◌, IfOk};
ghost use Rattle.ftd_imports.specs.Changed.{account_change};

use ftd_machine::{AccountName, Difference};
use ftd_rules::Obligations;
use std::alloc::{AllocError, Global};

/// How a record that was posted changed the obligations of its account.
#[derive(Drop)]
pub struct AccountChange {
    /// The account.
    pub account: AccountName,
    /// The obligations that were removed, by first day.
    pub removed: Obligations,
    /// The obligations that were added, by first day.
    pub added: Obligations,
}

/// How the account's obligations changed.
pub(crate) fn account_change(
    alloc: Global,
    account: &str,
    difference: &Difference,
) -> Result<AccountChange, AllocError>
    ensures { IfOk result (λ change. change ≡ account_change account.now difference.now) }
{
    let removed = Vec::from_slice(alloc, difference.removed.as_slice())?;
    let added = Vec::from_slice(alloc, difference.added.as_slice())?;
    Ok(AccountChange {
        account: AccountName::from_string(String::from_str(alloc, account)?),
        removed: Obligations::from_vec(removed),
        added: Obligations::from_vec(added),
    })
}
