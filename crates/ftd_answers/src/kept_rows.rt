//! The rows of what is kept, as CSV and as JSON.

ghost use Rattle.ftd_ports.specs.Writing.{Writes};
ghost use Rattle.ftd_answers.specs.KeptForms.{account_fields, holiday_fields, payment_fields};
ghost use Rattle.ftd_answers.specs.KeptForms.{rows_csv, rows_json, run_fields, total_fields};
ghost use Rattle.ftd_answers.specs.KeptForms.{year_fields};

use crate::Value;
use crate::forms::FieldName::{Both, Each, Json};
use crate::forms::{FieldName, Row, RowForm, write_csv, write_fields, write_json};
use ftd_machine::{
    KeptAccount, KeptHoliday, KeptPayment, KeptRows, KeptRun, KeptTotal, KeptYear, ReturnPeriod,
};
use ftd_ports::{Target, WriteFault};

static ACCOUNT: [FieldName; 4] = [
    Each("employer", "account"),
    Each("first_day", "start"),
    Both("carried"),
    Both("form"),
];

impl Row for KeptAccount {
    ghost fields = { λ account. account_fields };

    fn names() -> &'static [FieldName] {
        &ACCOUNT
    }

    fn write<W: Target>(
        &self,
        account: &str,
        form: RowForm,
        target: &mut W,
    ) -> Result<(), WriteFault> {
        let fields = [
            (ACCOUNT[0], Value::Text(self.name.as_str())),
            (ACCOUNT[1], Value::Day(self.account.start)),
            (ACCOUNT[2], Value::Flag(self.account.carried)),
            (ACCOUNT[3], Value::Form(self.account.form)),
        ];
        write_fields(form, false, &fields, target)
    }
}

static YEAR: [FieldName; 7] = [
    Each("employer", "account"),
    Both("year"),
    Both("lookback"),
    Both("opening"),
    Both("carried"),
    Both("turned"),
    Both("first_lookback"),
];

impl Row for KeptYear {
    ghost fields = { year_fields };

    fn names() -> &'static [FieldName] {
        &YEAR
    }

    fn write<W: Target>(
        &self,
        account: &str,
        form: RowForm,
        target: &mut W,
    ) -> Result<(), WriteFault> {
        let fields = [
            (YEAR[0], Value::Text(account)),
            (YEAR[1], Value::Number(self.line.year)),
            (YEAR[2], Value::Amount(self.line.lookback)),
            (YEAR[3], Value::Kind(self.line.opening)),
            (YEAR[4], Value::Flag(self.line.carried)),
            (YEAR[5], Value::DayOrNone(self.line.turn)),
            (YEAR[6], Value::Amount(self.first_lookback)),
        ];
        write_fields(form, false, &fields, target)
    }
}

static QUARTER_TOTAL: [FieldName; 4] = [
    Each("employer", "account"),
    Each("period", "quarter"),
    Both("amount"),
    Json("first"),
];

static YEAR_TOTAL: [FieldName; 4] = [
    Each("employer", "account"),
    Each("period", "year"),
    Both("amount"),
    Json("first"),
];

// The names of the columns are the same of a quarter and of a year.
impl Row for KeptTotal {
    ghost fields = { total_fields };

    fn names() -> &'static [FieldName] {
        &QUARTER_TOTAL
    }

    fn write<W: Target>(
        &self,
        account: &str,
        form: RowForm,
        target: &mut W,
    ) -> Result<(), WriteFault> {
        match self.period {
            ReturnPeriod::Quarter(quarter) => {
                let fields = [
                    (QUARTER_TOTAL[0], Value::Text(account)),
                    (QUARTER_TOTAL[1], Value::Quarter(quarter)),
                    (QUARTER_TOTAL[2], Value::Amount(self.cents)),
                    (QUARTER_TOTAL[3], Value::Amount(self.first)),
                ];
                write_fields(form, false, &fields, target)
            }
            ReturnPeriod::Year(year) => {
                let fields = [
                    (YEAR_TOTAL[0], Value::Text(account)),
                    (YEAR_TOTAL[1], Value::Number(year)),
                    (YEAR_TOTAL[2], Value::Amount(self.cents)),
                    (YEAR_TOTAL[3], Value::Amount(self.first)),
                ];
                write_fields(form, false, &fields, target)
            }
        }
    }
}

static HOLIDAY: [FieldName; 3] = [Both("day"), Both("added"), Both("holiday")];

impl Row for KeptHoliday {
    ghost fields = { λ account. holiday_fields };

    fn names() -> &'static [FieldName] {
        &HOLIDAY
    }

    fn write<W: Target>(
        &self,
        account: &str,
        form: RowForm,
        target: &mut W,
    ) -> Result<(), WriteFault> {
        let fields = [
            (HOLIDAY[0], Value::Day(self.day)),
            (HOLIDAY[1], Value::Flag(self.added)),
            (HOLIDAY[2], Value::Flag(self.is_holiday)),
        ];
        write_fields(form, false, &fields, target)
    }
}

static RUN: [FieldName; 7] = [
    Each("employer", "account"),
    Both("run"),
    Both("payday"),
    Both("fit"),
    Both("ss"),
    Both("medicare"),
    Json("void"),
];

impl Row for KeptRun {
    ghost fields = { run_fields };

    ghost is_void = { λ x. x.voided };

    fn names() -> &'static [FieldName] {
        &RUN
    }

    fn write<W: Target>(
        &self,
        account: &str,
        form: RowForm,
        target: &mut W,
    ) -> Result<(), WriteFault> {
        let fields = [
            (RUN[0], Value::Text(account)),
            (RUN[1], Value::Number(self.number)),
            (RUN[2], Value::Day(self.run.payday)),
            (RUN[3], Value::Amount(self.run.fit)),
            (RUN[4], Value::Amount(self.run.ss)),
            (RUN[5], Value::Amount(self.run.medicare)),
            (RUN[6], Value::Flag(self.voided)),
        ];
        write_fields(form, self.voided, &fields, target)
    }
}

static PAYMENT: [FieldName; 7] = [
    Each("employer", "account"),
    Both("payment"),
    Both("paid"),
    Both("for"),
    Both("amount"),
    Json("obligation"),
    Json("void"),
];

impl Row for KeptPayment {
    ghost fields = { payment_fields };

    ghost is_void = { λ x. x.voided };

    fn names() -> &'static [FieldName] {
        &PAYMENT
    }

    fn write<W: Target>(
        &self,
        account: &str,
        form: RowForm,
        target: &mut W,
    ) -> Result<(), WriteFault> {
        let fields = [
            (PAYMENT[0], Value::Text(account)),
            (PAYMENT[1], Value::Number(self.number)),
            (PAYMENT[2], Value::Day(self.payment.paid)),
            (PAYMENT[3], Value::Day(self.payment.for_day)),
            (PAYMENT[4], Value::Amount(self.payment.cents)),
            (PAYMENT[5], Value::DayOrNone(self.obligation)),
            (PAYMENT[6], Value::Flag(self.voided)),
        ];
        write_fields(form, self.voided, &fields, target)
    }
}

/// Writes what is kept as CSV: a header, and a record for each row that was not voided. It takes no
/// memory but what the target takes. Where the target fails, a prefix of the text was written, and
/// it fails nowhere else.
#[tactic(auto, unfolding(crate::specs::KeptForms::rows_csv, crate::specs::KeptForms::runs_csv))]
pub fn write_kept_csv<W: Target>(rows: &KeptRows, target: &mut W) -> Result<(), WriteFault>
    ensures { Writes result (W.taken target.old) (W.taken target.new)
        (W.failed target.new) (rows_csv rows.now) }
{
    match rows {
        KeptRows::Accounts { rows } => write_csv("", rows.as_slice(), target),
        KeptRows::Years { account, rows } => write_csv(account.as_str(), rows.as_slice(), target),
        KeptRows::Reported { account, rows } => {
            write_csv(account.as_str(), rows.as_slice(), target)
        }
        KeptRows::Holidays { rows, .. } => write_csv("", rows.as_slice(), target),
        KeptRows::Runs { account, rows, .. } => {
            write_csv(account.as_str(), rows.as_slice(), target)
        }
        KeptRows::Payments { account, rows, .. } => {
            write_csv(account.as_str(), rows.as_slice(), target)
        }
    }
}

/// Writes what is kept as JSON: a list with an object for each row. It takes no memory but what the
/// target takes. Where the target fails, a prefix of the text was written, and it fails nowhere
/// else.
#[tactic(auto, unfolding(crate::specs::KeptForms::rows_json))]
pub fn write_kept_json<W: Target>(rows: &KeptRows, target: &mut W) -> Result<(), WriteFault>
    ensures { Writes result (W.taken target.old) (W.taken target.new)
        (W.failed target.new) (rows_json rows.now) }
{
    match rows {
        KeptRows::Accounts { rows } => write_json("", rows.as_slice(), &[], target),
        KeptRows::Years { account, rows } => {
            write_json(account.as_str(), rows.as_slice(), &[], target)
        }
        KeptRows::Reported { account, rows } => {
            write_json(account.as_str(), rows.as_slice(), &[], target)
        }
        KeptRows::Holidays { rows, .. } => write_json("", rows.as_slice(), &[], target),
        KeptRows::Runs { account, rows, .. } => {
            write_json(account.as_str(), rows.as_slice(), &[], target)
        }
        KeptRows::Payments { account, rows, .. } => {
            write_json(account.as_str(), rows.as_slice(), &[], target)
        }
    }
}
