//! The rows of what is kept.

ghost use Rattle.std.specs.Prelude.{◌≡◌, option_map};
ghost use Rattle.ftd_ports.specs.Writing.{Writes};
ghost use Rattle.ftd_pages.specs.Kept.{account_shape, class_if, holiday_shape, payment_shape};
ghost use Rattle.ftd_pages.specs.Kept.{run_shape, total_shape, year_shape};
ghost use Rattle.ftd_pages.specs.Links.{reason_address};
ghost use Rattle.ftd_pages.specs.Links.{address_of};

use crate::columns::{
    ACCOUNT, ADDED, AMOUNT, CARRIED, DAY, FIRST_LOOKBACK, FIRST_REPORTED, FIT, FOR_DAY, FORM,
    HOLIDAY, LOOKBACK, MEDICARE, OBLIGATION, OF_QUARTER, OF_YEAR, OPENING, PAID_ON, PAYDAY,
    PAYMENT, RUN, SS, START, TURNED, VOID, YEAR,
};
use crate::links::Way::{self, Nowhere, Obligation};
use crate::links::to_account;
use crate::rows::{Class, PageRow, Part, write_fields, write_linked_fields};
use ftd_answers::Value;
use ftd_days::Day;
use ftd_machine::{
    KeptAccount, KeptHoliday, KeptPayment, KeptRun, KeptTotal, KeptYear, ReturnPeriod,
};
use ftd_ports::{Target, WriteFault};

/// The class of what may have been voided.
fn class_if(voided: bool) -> Class
    ensures { result ≡ class_if voided }
{
    if voided { Class::Void } else { Class::Plain }
}

/// The way to the obligation of an account that begins on a day, if there is one.
fn way_to<'a>(account: &'a str, obligation: Option<Day>) -> Way<'a>
    ensures { address_of result ≡ option_map (reason_address account.now) obligation }
{
    match obligation {
        None => Nowhere,
        Some(first) => Obligation(account, first),
    }
}

impl PageRow for KeptAccount {
    ghost shape = { λ account. account_shape };

    fn write_part<W: Target>(
        &self,
        account: &str,
        part: Part,
        target: &mut W,
    ) -> Result<(), WriteFault> {
        let name = self.name.as_str();
        let fields = [
            (ACCOUNT, Value::Text(name), to_account(name)),
            (START, Value::Day(self.account.start), Nowhere),
            (CARRIED, Value::Flag(self.account.carried), Nowhere),
            (FORM, Value::Form(self.account.form), Nowhere),
        ];
        write_linked_fields(part, Class::Plain, &fields, target)
    }
}

impl PageRow for KeptYear {
    ghost shape = { year_shape };

    fn write_part<W: Target>(
        &self,
        account: &str,
        part: Part,
        target: &mut W,
    ) -> Result<(), WriteFault> {
        let fields = [
            (ACCOUNT, Value::Text(account)),
            (YEAR, Value::Number(self.line.year)),
            (LOOKBACK, Value::Amount(self.line.lookback)),
            (OPENING, Value::Kind(self.line.opening)),
            (CARRIED, Value::Flag(self.line.carried)),
            (TURNED, Value::DayOrNone(self.line.turn)),
            (FIRST_LOOKBACK, Value::Amount(self.first_lookback)),
        ];
        write_fields(part, Class::Plain, &fields, target)
    }
}

impl PageRow for KeptTotal {
    ghost shape = { total_shape };

    fn write_part<W: Target>(
        &self,
        account: &str,
        part: Part,
        target: &mut W,
    ) -> Result<(), WriteFault> {
        match self.period {
            ReturnPeriod::Quarter(quarter) => {
                let fields = [
                    (ACCOUNT, Value::Text(account)),
                    (OF_QUARTER, Value::Quarter(quarter)),
                    (AMOUNT, Value::Amount(self.cents)),
                    (FIRST_REPORTED, Value::Amount(self.first)),
                ];
                write_fields(part, Class::Plain, &fields, target)
            }
            ReturnPeriod::Year(year) => {
                let fields = [
                    (ACCOUNT, Value::Text(account)),
                    (OF_YEAR, Value::Number(year)),
                    (AMOUNT, Value::Amount(self.cents)),
                    (FIRST_REPORTED, Value::Amount(self.first)),
                ];
                write_fields(part, Class::Plain, &fields, target)
            }
        }
    }
}

impl PageRow for KeptHoliday {
    ghost shape = { λ account. holiday_shape };

    fn write_part<W: Target>(
        &self,
        account: &str,
        part: Part,
        target: &mut W,
    ) -> Result<(), WriteFault> {
        let fields = [
            (DAY, Value::Day(self.day)),
            (ADDED, Value::Flag(self.added)),
            (HOLIDAY, Value::Flag(self.is_holiday)),
        ];
        write_fields(part, Class::Plain, &fields, target)
    }
}

impl PageRow for KeptRun {
    ghost shape = { run_shape };

    fn write_part<W: Target>(
        &self,
        account: &str,
        part: Part,
        target: &mut W,
    ) -> Result<(), WriteFault> {
        let fields = [
            (ACCOUNT, Value::Text(account)),
            (RUN, Value::Number(self.number)),
            (PAYDAY, Value::Day(self.run.payday)),
            (FIT, Value::Amount(self.run.fit)),
            (SS, Value::Amount(self.run.ss)),
            (MEDICARE, Value::Amount(self.run.medicare)),
            (VOID, Value::Flag(self.voided)),
        ];
        write_fields(part, class_if(self.voided), &fields, target)
    }
}

impl PageRow for KeptPayment {
    ghost shape = { payment_shape };

    fn write_part<W: Target>(
        &self,
        account: &str,
        part: Part,
        target: &mut W,
    ) -> Result<(), WriteFault> {
        let fields = [
            (ACCOUNT, Value::Text(account), Nowhere),
            (PAYMENT, Value::Number(self.number), Nowhere),
            (PAID_ON, Value::Day(self.payment.paid), Nowhere),
            (FOR_DAY, Value::Day(self.payment.for_day), Nowhere),
            (AMOUNT, Value::Amount(self.payment.cents), Nowhere),
            (
                OBLIGATION,
                Value::DayOrNone(self.obligation),
                way_to(account, self.obligation),
            ),
            (VOID, Value::Flag(self.voided), Nowhere),
        ];
        write_linked_fields(part, class_if(self.voided), &fields, target)
    }
}
