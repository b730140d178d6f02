//! The accounts, and their forms.

ghost use Rattle.ftd_store.specs.Changes.{with_account, with_form};
ghost use Rattle.ftd_store.specs.Finds.{FindsAccount, FindsForm, FindsInForce};
ghost use Rattle.ftd_store.specs.Frame.{Reads, Writes};

use crate::readings::Reading;
use crate::tx::Tx;
use crate::{Account, StoreFault, StoredDay, StoredFlag, StoredForm, as_corrected};
use ftd_rules::Form;
use ftd_sql::TableName;
use sqlite::{Alter, params};
use std::alloc::Global;

impl<'store, S: Alter> Tx<'store, S> {
    /// The account of the name, or None.
    pub fn account(&mut self, name: &str) -> Result<Option<Account>, StoreFault>
        ensures call { Reads S.Store self.old self.new result (FindsAccount name.now) }
    {
        self.read_only(Reading::ReadAccount, params![name])
    }

    /// The account of the name as its last correction has it, or as it was enrolled where it has
    /// none. None where it was not enrolled.
    pub fn account_in_force(
        &mut self,
        alloc: Global,
        name: &str,
    ) -> Result<Option<Account>, StoreFault>
        ensures call { Reads S.Store self.old self.new result (FindsInForce name.now) }
    {
        let enrolled = self.account(name)?;
        let corrections = self.account_corrections(alloc, name)?;
        Ok(as_corrected(enrolled, &corrections))
    }

    /// Adds an account. `Failed` where there is one of the name.
    pub fn add_account(&mut self, name: &str, account: Account) -> Result<(), StoreFault>
        ensures call { Writes S.Store self.old self.new result (with_account name.now account) }
    {
        let start = StoredDay(account.start);
        let carried = StoredFlag(account.carried);
        self.add(TableName::Accounts, params![name, start, carried])
    }

    /// The form of the account, or None where it has none.
    pub fn form(&mut self, account: &str) -> Result<Option<Form>, StoreFault>
        ensures call { Reads S.Store self.old self.new result (FindsForm account.now) }
    {
        self.read_only(Reading::ReadForm, params![account])
    }

    /// Adds the form of the account. `Failed` where it has one, and where the account is not there.
    pub fn add_form(&mut self, account: &str, form: Form) -> Result<(), StoreFault>
        ensures call { Writes S.Store self.old self.new result (with_form account.now form) }
    {
        self.add(TableName::Forms, params![account, StoredForm(form)])
    }
}
