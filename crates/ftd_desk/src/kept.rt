//! What is kept of accounts, of each one thing at most.

ghost use Rattle.std.specs.Prelude.{◌≡◌, [], IfOk};
ghost use Rattle.std.specs.List.{position};
ghost use Rattle.ftd_desk.specs.Kept.{Takes, is_of, kept_of};

use ftd_machine::AccountName;
use ftd_rules::is_account_name;
use std::alloc::{AllocError, Global};

/// Of how many accounts things of one kind are kept at most.
const MOST_ACCOUNTS: usize = 1_024;

/// A thing that is kept of an account.
#[derive(Drop)]
pub(crate) struct OfAccount<T> {
    pub account: AccountName,
    pub content: T,
}

/// What is kept of some accounts, of each one thing at most.
#[derive(Drop)]
pub(crate) struct Kept<T> {
    pub entries: Vec<OfAccount<T>>,
}

impl<T: Drop> OfAccount<T> {
    /// The thing, as one of this account.
    fn new(alloc: Global, name: &str, content: T) -> Result<OfAccount<T>, AllocError>
        ensures account { IfOk result (λ made. made.account ≡ name.now) }
        ensures content { IfOk result (λ made. made.content ≡ content) }
    {
        let account = AccountName::from_string(String::from_str(alloc, name)?);
        Ok(OfAccount { account, content })
    }

    /// Whether it is of this account.
    pub fn is_of(&self, name: &str) -> bool
        ensures { result ≡ is_of name.now self.now }
    {
        self.account.as_str() == name
    }
}

impl<T: Drop> Kept<T> {
    /// Nothing is kept. What is kept later takes its memory from the allocator.
    pub fn none(alloc: Global) -> Kept<T>
        ensures { result.entries.items ≡ [] }
    {
        Kept {
            entries: Vec::new(alloc),
        }
    }

    /// The place of what is kept of the account, if anything is.
    pub fn place(&self, name: &str) -> Option<usize>
        ensures { result ≡ position (is_of name.now) self.now.entries.items }
    {
        self.entries.iter().position(|entry| entry.is_of(name))
    }

    /// Keeps the thing of the account, in the place of what was. Where as many accounts are kept as
    /// may be, they are forgotten; where there is no memory for one more, or no account has the
    /// name, the thing is not kept.
    pub fn set(&mut self, alloc: Global, name: &str, content: T)
        ensures { Takes (kept_of self.old) (kept_of self.new) name.now content }
    {
        if let Some(place) = self.place(name) {
            self.entries[place].content = content;
            return;
        }
        if !is_account_name(name.as_bytes()) {
            return;
        }
        if self.entries.len() >= MOST_ACCOUNTS {
            self.entries.clear();
        }
        if let Ok(made) = OfAccount::new(alloc, name, content) {
            let _ = self.entries.push(made);
        }
    }
}
