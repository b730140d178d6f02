//! What a request gives the desk to keep.

use ftd_days::{Day, Quarter};
use ftd_rules::Form;

/// An employer's account.
#[derive(Clone, Copy, Debug, PartialEq, Eq)]
pub struct Account {
    /// The employer's first day.
    pub start: Day,
    /// Whether the account comes into its first open year as semiweekly, having reached 100,000.00
    /// the year before.
    pub carried: bool,
    /// The return that the employer files.
    pub form: Form,
}

/// How an account begins: the employer's first day, and whether the account came in as semiweekly.
#[derive(Clone, Copy, Debug, PartialEq, Eq)]
pub struct Beginning {
    pub start: Day,
    pub carried: bool,
}

/// The period that a return is about: a quarter on Form 941, a year on Form 943.
#[derive(Clone, Copy, Debug, PartialEq, Eq)]
pub enum ReturnPeriod {
    Quarter(Quarter),
    Year(u32),
}

impl ReturnPeriod {
    ghost use Rattle.std.specs.Prelude.{◌≡◌};
    ghost use Rattle.ftd_machine.specs.Requests.{form_for, year_of_period};

    /// The form whose return is about it.
    pub fn form(&self) -> Form
        ensures { result ≡ form_for self.now }
    {
        match self {
            ReturnPeriod::Quarter(_) => Form::F941,
            ReturnPeriod::Year(_) => Form::F943,
        }
    }

    /// Its year.
    pub fn year(&self) -> u32
        ensures { result ≡ year_of_period self.now }
    {
        match self {
            ReturnPeriod::Quarter(quarter) => quarter.year(),
            ReturnPeriod::Year(year) => *year,
        }
    }
}
