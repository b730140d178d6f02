//! What may be asked of the desk.

ghost use Rattle.std.specs.Prelude.{◌≡◌, None, Some, MatchOption, option_map};
ghost use Rattle.ftd_machine.specs.Kept.{account_kept};
ghost use Rattle.ftd_machine.specs.Questions.{account_asked, question_of};
ghost use Rattle.ftd_machine.specs.Step.{with_number};

use crate::entries::{Account, Beginning, ReturnPeriod};
use crate::lists::{AccountName, Days};
use ftd_days::{Cents, Day, Quarter};
use ftd_rules::{PayRun, Payment};

/// What may be asked of the desk. `docs/REQUESTS.md` has the checks of each in their order.
#[derive(Drop)]
pub enum Request {
    /// Something that deposits rest on is entered.
    Enter(Entry),
    /// A pay run, under its number.
    Post {
        account: AccountName,
        number: u32,
        run: PayRun,
    },
    /// The pay run of a number is voided.
    Void {
        account: AccountName,
        number: u32,
    },
    /// A payment, under its number.
    Pay {
        account: AccountName,
        number: u32,
        payment: Payment,
    },
    /// The payment of a number is voided.
    VoidPay {
        account: AccountName,
        number: u32,
    },
    /// What was entered before is put right: the first correction of each thing has number 1, the
    /// next one 2.
    Correct {
        number: u32,
        correction: Correction,
    },
    /// A question. Its answer follows from what is kept, and nothing changes.
    Question(Question),
}

/// What is entered.
#[derive(Drop)]
pub enum Entry {
    /// A new account, under its name.
    Account {
        name: AccountName,
        account: Account,
    },
    /// The legal holidays of a year.
    Calendar {
        year: u32,
        days: Days,
    },
    /// A holiday that is added to a year whose calendar is given.
    Holiday {
        day: Day,
    },
    /// The total that an account reported, in cents: for a quarter on Form 941, for a year on Form
    /// 943.
    Total {
        account: AccountName,
        period: ReturnPeriod,
        cents: Cents,
    },
    /// A year of the account is opened: its paydays may be posted from now on.
    Year {
        account: AccountName,
        year: u32,
    },
}

/// What is put right. What was entered first stays as it was.
#[derive(Drop)]
pub enum Correction {
    /// The total that an account reported for a quarter or a year, in cents.
    Total {
        account: AccountName,
        period: ReturnPeriod,
        cents: Cents,
    },
    /// A day of a year whose calendar is given is taken back as a holiday, or made one again.
    Holiday {
        day: Day,
        is_holiday: bool,
    },
    /// The first day of an account, and whether it came in as semiweekly, while nothing rests on
    /// them.
    Account {
        account: AccountName,
        beginning: Beginning,
    },
}

impl Request {
    /// The question, if the request is one.
    pub fn question(&self) -> Option<&Question>
        ensures { MatchOption result (question_of self.now ≡ None)
            (λ question. question_of self.now ≡ Some question.now) }
    {
        if let Request::Question(question) = self {
            Some(question)
        } else {
            None
        }
    }

    /// The same pay run, payment or correction under another number. Any other request stays as it
    /// is.
    pub fn with_number(self, number: u32) -> Request
        ensures { result ≡ with_number self number }
    {
        match self {
            Request::Post { account, run, .. } => Request::Post {
                account,
                number,
                run,
            },
            Request::Pay {
                account,
                payment,
                ..
            } => Request::Pay {
                account,
                number,
                payment,
            },
            Request::Correct { correction, .. } => Request::Correct { number, correction },
            other => other,
        }
    }
}

/// A question that may be asked of the desk. `docs/REQUESTS.md` has the checks of each in their
/// order.
#[derive(Drop)]
pub enum Question {
    /// What is the deposit schedule of the account on a day, and why?
    Status {
        account: AccountName,
        day: Day,
    },
    /// Why is the obligation so whose deposit period holds a day?
    Explain {
        account: AccountName,
        day: Day,
    },
    /// What must be deposited for a quarter, and how does each deposit stand as of a day?
    DueList {
        account: AccountName,
        quarter: Quarter,
        as_of: Day,
    },
    /// What is the liability of a quarter, day by day?
    ScheduleB {
        account: AccountName,
        quarter: Quarter,
    },
    /// What is due between two days, both included, over all accounts, and how does each deposit
    /// stand as of a day?
    Agenda {
        from: Day,
        to: Day,
        as_of: Day,
    },
    /// What is due until a day, over all accounts, and not paid as of a day?
    Owed {
        until: Day,
        as_of: Day,
    },
    /// Which money counts for nothing, over all accounts, of the days up to one: payments for a day
    /// of no obligation, and what was paid for an obligation beyond its amount?
    Unapplied {
        until: Day,
    },
    /// What is kept?
    Kept(KeptList),
}

impl Question {
    /// The account that the question names. What is due over all accounts names none, nor do the
    /// list of all accounts and the holidays of a year.
    pub fn account(&self) -> Option<&AccountName>
        ensures { option_map (λ name. name.now) result ≡ account_asked self.now }
    {
        match self {
            Question::Status { account, .. }
            | Question::Explain { account, .. }
            | Question::DueList { account, .. }
            | Question::ScheduleB { account, .. } => Some(account),
            Question::Agenda { .. } | Question::Owed { .. } | Question::Unapplied { .. } => None,
            Question::Kept(kept) => kept.account(),
        }
    }
}

/// What of all that is kept is asked for.
#[derive(Drop)]
pub enum KeptList {
    /// The accounts, by name.
    Accounts,
    /// The open years of an account, by year, each with its lookback total, its opening and its
    /// turn.
    Years {
        account: AccountName,
    },
    /// The totals that an account reported, by quarter on Form 941 and by year on Form 943.
    Reported {
        account: AccountName,
    },
    /// The legal holidays of a year: those that its calendar was given with, and those that were
    /// added to it.
    Holidays {
        year: u32,
    },
    /// The runs of an account with a payday in a quarter, void ones too, by payday and number.
    Runs {
        account: AccountName,
        quarter: Quarter,
    },
    /// The payments of an account for a day of a quarter, void ones too, by that day and number.
    Payments {
        account: AccountName,
        quarter: Quarter,
    },
}

impl KeptList {
    /// The account that is asked for. All accounts and the holidays of a year have none.
    fn account(&self) -> Option<&AccountName>
        ensures { option_map (λ name. name.now) result ≡ account_kept self.now }
    {
        match self {
            KeptList::Years { account }
            | KeptList::Reported { account }
            | KeptList::Runs { account, .. }
            | KeptList::Payments { account, .. } => Some(account),
            KeptList::Accounts | KeptList::Holidays { .. } => None,
        }
    }
}
