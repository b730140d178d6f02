//! Values as the cells of a row, and back.

ghost use Rattle.std.specs.Prelude.{◌≡◌, ◌<◌, ◌^◌, pos};
ghost use Rattle.sqlite.specs.Values.{narrow_refusal};
ghost use Rattle.sqlite.specs.declared.types.Value.TheVariants.{Int};
ghost use Rattle.ftd_store.specs.Cells.{day_number, flag_number, rule_number, schedule_number};
ghost use Rattle.ftd_store.specs.Cells.{form_number, IsDayCell, IsFlagCell, IsRuleCell};
ghost use Rattle.ftd_store.specs.Cells.{IsScheduleCell, IsFormCell};

use ftd_days::{Cents, Day};
use ftd_rules::{Form, Kind, Rule};
use sqlite::types::{FromSql, FromSqlError, ToSql, ValueRef};
use std::alloc::Global;

/// A day, stored as its number of days since 1970-01-01.
#[derive(Clone, Copy, Debug, PartialEq, Eq)]
pub struct StoredDay(pub Day);

impl<'a> ToSql<'a> for StoredDay {
    ghost to_sql = { λ day. Int (day_number day.0) };

    fn to_sql(self) -> ValueRef<'a> {
        ValueRef::Int(i64::from(self.0.number()))
    }
}

impl FromSql for StoredDay {
    ghost reads_as = { λ v day. v ≡ Int (day_number day.0) };

    ghost is_readable = { IsDayCell };

    ghost refusal = { narrow_refusal };

    fn column_result(alloc: Global, value: ValueRef<'_>) -> Result<StoredDay, FromSqlError> {
        let number = i32::column_result(alloc, value)?;
        match Day::from_number(number) {
            Some(day) => Ok(StoredDay(day)),
            None => Err(FromSqlError::OutOfRange),
        }
    }
}

/// A truth value, stored as 0 or 1.
#[derive(Clone, Copy, Debug, PartialEq, Eq)]
pub struct StoredFlag(pub bool);

impl<'a> ToSql<'a> for StoredFlag {
    ghost to_sql = { λ flag. Int (flag_number flag.0) };

    fn to_sql(self) -> ValueRef<'a> {
        ValueRef::Int(if self.0 { 1 } else { 0 })
    }
}

// Every other number than 0 and 1 is refused.
impl FromSql for StoredFlag {
    ghost reads_as = { λ v flag. v ≡ Int (flag_number flag.0) };

    ghost is_readable = { IsFlagCell };

    ghost refusal = { narrow_refusal };

    fn column_result(_: Global, value: ValueRef<'_>) -> Result<StoredFlag, FromSqlError> {
        match value {
            ValueRef::Int(0) => Ok(StoredFlag(false)),
            ValueRef::Int(1) => Ok(StoredFlag(true)),
            ValueRef::Int(_) => Err(FromSqlError::OutOfRange),
            _ => Err(FromSqlError::InvalidType),
        }
    }
}

/// A rule, stored as 0 (monthly), 1 (semiweekly) or 2 (next-day).
#[derive(Clone, Copy, Debug, PartialEq, Eq)]
pub struct StoredRule(pub Rule);

impl<'a> ToSql<'a> for StoredRule {
    ghost to_sql = { λ rule. Int (rule_number rule.0) };

    fn to_sql(self) -> ValueRef<'a> {
        ValueRef::Int(match self.0 {
            Rule::Monthly => 0,
            Rule::Semiweekly => 1,
            Rule::NextDay => 2,
        })
    }
}

impl FromSql for StoredRule {
    ghost reads_as = { λ v rule. v ≡ Int (rule_number rule.0) };

    ghost is_readable = { IsRuleCell };

    ghost refusal = { narrow_refusal };

    fn column_result(_: Global, value: ValueRef<'_>) -> Result<StoredRule, FromSqlError> {
        match value {
            ValueRef::Int(0) => Ok(StoredRule(Rule::Monthly)),
            ValueRef::Int(1) => Ok(StoredRule(Rule::Semiweekly)),
            ValueRef::Int(2) => Ok(StoredRule(Rule::NextDay)),
            ValueRef::Int(_) => Err(FromSqlError::OutOfRange),
            _ => Err(FromSqlError::InvalidType),
        }
    }
}

/// A year's schedule as it opens, stored as 0 (monthly) or 1 (semiweekly).
#[derive(Clone, Copy, Debug, PartialEq, Eq)]
pub struct StoredSchedule(pub Kind);

impl<'a> ToSql<'a> for StoredSchedule {
    ghost to_sql = { λ schedule. Int (schedule_number schedule.0) };

    fn to_sql(self) -> ValueRef<'a> {
        ValueRef::Int(match self.0 {
            Kind::Monthly => 0,
            Kind::Semiweekly => 1,
        })
    }
}

impl FromSql for StoredSchedule {
    ghost reads_as = { λ v schedule. v ≡ Int (schedule_number schedule.0) };

    ghost is_readable = { IsScheduleCell };

    ghost refusal = { narrow_refusal };

    fn column_result(_: Global, value: ValueRef<'_>) -> Result<StoredSchedule, FromSqlError> {
        match value {
            ValueRef::Int(0) => Ok(StoredSchedule(Kind::Monthly)),
            ValueRef::Int(1) => Ok(StoredSchedule(Kind::Semiweekly)),
            ValueRef::Int(_) => Err(FromSqlError::OutOfRange),
            _ => Err(FromSqlError::InvalidType),
        }
    }
}

/// A form, stored as 0 (941) or 1 (943).
#[derive(Clone, Copy, Debug, PartialEq, Eq)]
pub struct StoredForm(pub Form);

impl<'a> ToSql<'a> for StoredForm {
    ghost to_sql = { λ form. Int (form_number form.0) };

    fn to_sql(self) -> ValueRef<'a> {
        ValueRef::Int(match self.0 {
            Form::F941 => 0,
            Form::F943 => 1,
        })
    }
}

impl FromSql for StoredForm {
    ghost reads_as = { λ v form. v ≡ Int (form_number form.0) };

    ghost is_readable = { IsFormCell };

    ghost refusal = { narrow_refusal };

    fn column_result(_: Global, value: ValueRef<'_>) -> Result<StoredForm, FromSqlError> {
        match value {
            ValueRef::Int(0) => Ok(StoredForm(Form::F941)),
            ValueRef::Int(1) => Ok(StoredForm(Form::F943)),
            ValueRef::Int(_) => Err(FromSqlError::OutOfRange),
            _ => Err(FromSqlError::InvalidType),
        }
    }
}

/// An amount of less than 2^63 cents, which is what a cell holds.
#[derive(Clone, Copy, Debug, PartialEq, Eq)]
pub struct StoredCents {
    pub cents: Cents,
    ghost small: { cents.0 < 2 ^ 63 },
}

impl<'a> ToSql<'a> for StoredCents {
    ghost to_sql = { λ amount. Int (pos amount.cents.0) };

    fn to_sql(self) -> ValueRef<'a> {
        ValueRef::Int(self.cents.0 as i64)
    }
}
