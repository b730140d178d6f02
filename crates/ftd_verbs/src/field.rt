//! The fields of the verbs, and why a field is not read.

ghost use Rattle.std.specs.Prelude.{◌≡◌};
ghost use Rattle.ftd_verbs.specs.FieldRows.{key_of, kind_of};

use std::alloc::{AllocError, AllocFailed};

/// A field of a verb.
#[derive(Clone, Copy, Debug, PartialEq, Eq)]
pub enum Field {
    /// The name of an account.
    Account,
    /// The employer's first day.
    Start,
    /// Whether the account comes in as semiweekly.
    Carried,
    /// The form that the employer files.
    Form,
    /// A year.
    Year,
    /// The legal holidays of a year.
    Days,
    /// A quarter.
    Quarter,
    /// An amount.
    Amount,
    /// The number of a new pay run.
    Run,
    /// The number of the pay run that is voided.
    RunToVoid,
    /// The day on which the wages are paid.
    Payday,
    /// The federal income tax withheld.
    Fit,
    /// Both shares of social security tax.
    Ss,
    /// Both shares of Medicare tax.
    Medicare,
    /// The number of a new payment.
    Payment,
    /// The number of the payment that is voided.
    PaymentToVoid,
    /// The day on which it was paid.
    Paid,
    /// A day of the period that it is paid for.
    For,
    /// The number of a correction.
    Number,
    /// Whether a day is to be a holiday.
    IsHoliday,
    /// A day.
    Day,
    /// The day up to which payments count.
    AsOf,
    /// The same; today where it is left out.
    AsOfToday,
    /// The first due date; today where it is left out.
    From,
    /// The last due date; thirty days after the first where it is left out.
    To,
    /// The last due date; a week after the as-of day where it is left out.
    Until,
    /// The last day; the last one that a question may be asked of where it is left out.
    LastDay,
}

/// The kind of a field's values.
#[derive(Clone, Copy, Debug, PartialEq, Eq)]
pub enum Kind {
    /// The name of an account.
    Account,
    /// A whole number.
    Number,
    /// A whole number under which nothing stands yet. A source may have a word for the next one.
    NewNumber,
    /// A whole number, which may be left out: it is the next one then.
    NumberOrNext,
    /// A year.
    Year,
    /// A day.
    Day,
    /// A day, which may be left out: the verb says which it is then.
    DayOrOther,
    /// A day, which may be left out where the source knows the day of today: it is today then.
    DayOrToday,
    /// Any number of days.
    Days,
    /// A quarter.
    Quarter,
    /// An amount.
    Amount,
    /// A mark, which is there or not.
    Mark,
    /// Yes or no.
    Answer,
    /// A form, which may be left out: it is Form 941 then.
    Form,
}

impl Field {
    /// Its name: that of a member of a body, and in a path, between braces.
    pub fn key(self) -> &'static str
        ensures { result.now ≡ key_of self }
    {
        match self {
            Field::Account => "account",
            Field::Start => "start",
            Field::Carried => "carried",
            Field::Form => "form",
            Field::Year => "year",
            Field::Days => "days",
            Field::Quarter => "quarter",
            Field::Amount => "amount",
            Field::Run | Field::RunToVoid => "run",
            Field::Payday => "payday",
            Field::Fit => "fit",
            Field::Ss => "ss",
            Field::Medicare => "medicare",
            Field::Payment | Field::PaymentToVoid => "payment",
            Field::Paid => "paid",
            Field::For => "for",
            Field::Number => "number",
            Field::IsHoliday => "holiday",
            Field::Day => "day",
            Field::AsOf | Field::AsOfToday => "asof",
            Field::From => "from",
            Field::To => "to",
            Field::Until | Field::LastDay => "until",
        }
    }

    /// The kind of its values.
    pub fn kind(self) -> Kind
        ensures { result ≡ kind_of self }
    {
        match self {
            Field::Account => Kind::Account,
            Field::RunToVoid | Field::PaymentToVoid => Kind::Number,
            Field::Run | Field::Payment => Kind::NewNumber,
            Field::Number => Kind::NumberOrNext,
            Field::Year => Kind::Year,
            Field::Start | Field::Payday | Field::Paid | Field::For | Field::Day | Field::AsOf =>
                Kind::Day,
            Field::AsOfToday | Field::From => Kind::DayOrToday,
            Field::To | Field::Until | Field::LastDay => Kind::DayOrOther,
            Field::Days => Kind::Days,
            Field::Quarter => Kind::Quarter,
            Field::Amount | Field::Fit | Field::Ss | Field::Medicare => Kind::Amount,
            Field::Carried => Kind::Mark,
            Field::IsHoliday => Kind::Answer,
            Field::Form => Kind::Form,
        }
    }
}

/// Why the fields of a verb ask nothing.
#[derive(Clone, Copy, Debug, PartialEq, Eq)]
pub enum FieldFault {
    /// The first field that has no value of its kind.
    Bad(Field),
    /// Out of memory.
    Memory,
}

impl From<AllocError> for FieldFault {
    ghost use Rattle.std.specs.Prelude.{◌≡◌};
    ghost use Rattle.ftd_verbs.specs.declared.field.FieldFault.TheVariants.{Memory};

    ghost from_gives = { λ _ e. e ≡ Memory };

    fn from(_: AllocError) -> FieldFault {
        FieldFault::Memory
    }
}
