//! The rows of a due list, by what is known of the quarter's return.

ghost use Rattle.std.specs.Prelude.{◌≡◌, ◌<◌, ◌≤◌, filter, IfOk, IfSome};
ghost use Rattle.std.specs.List.{list_any, sum_by};
ghost use Rattle.ftd_days.specs.Calendar.{quarter_year};
ghost use Rattle.ftd_rules.specs.Payments.{payment_cents};
ghost use Rattle.ftd_store.specs.Lists.{Pairs};
ghost use Rattle.ftd_questions.specs.DueRows.{IsReturnBy, IsRowBy, begins_in, is_next_day_row};

use ftd_days::{Day, Holidays, LAST_OPEN_YEAR, LAST_YEAR, Quarter};
use ftd_entries::ReturnFacts;
use ftd_rules::{
    AMOUNTS_END, Case, DueRow, Form, Obligation, Payment, Rule, makeup, paid_by, return_due,
    with_return,
};
use ftd_store::StoreFault;
use std::alloc::Global;

/// What the rows of a quarter's due list rest on besides their obligations.
#[derive(Drop)]
pub(crate) struct QuarterReturn {
    /// The return that the employer files.
    pub form: Form,
    /// When it is due.
    pub due: Day,
    /// Whether the obligations may be paid with it.
    pub small: bool,
    /// Whether what was paid by the day it is due reaches what is owed on it.
    pub paid: bool,
    /// The payments for the days of its return period that are not void.
    pub payments: Vec<Payment>,
    /// The holidays of its year and of the next.
    pub holidays: Holidays,
}

/// Whether the obligation is a next-day one.
pub(crate) fn is_next_day(obligation: &Obligation) -> bool
    ensures { result ≡ is_next_day_row obligation.now }
{
    match obligation.rule {
        Rule::Monthly | Rule::Semiweekly => false,
        Rule::NextDay => true,
    }
}

/// Whether one of the obligations is a next-day one.
pub(crate) fn has_next_day(obligations: &[Obligation]) -> bool
    ensures { result ≡ list_any is_next_day_row obligations.now }
{
    obligations.iter().any(|obligation| is_next_day(obligation))
}

/// Whether the obligation begins in the quarter.
fn begins_in(obligation: &Obligation, quarter: Quarter) -> bool
    ensures { result ≡ begins_in quarter obligation.now }
{
    obligation.first.quarter() == quarter
}

/// How the return of the quarter stands, by what is known of its return period, and whether a
/// next-day obligation begins in that.
pub(crate) fn quarter_return(
    form: Form,
    quarter: Quarter,
    next_day: bool,
    period: ReturnFacts,
    holidays: Holidays,
) -> QuarterReturn
    requires early { quarter_year quarter ≤ LAST_OPEN_YEAR }
    requires small { sum_by payment_cents period.payments.items < AMOUNTS_END }
    ensures stands { IsReturnBy form quarter next_day period holidays result }
    ensures small { sum_by payment_cents result.payments.items < AMOUNTS_END }
{
    let ReturnFacts {
        first,
        last,
        payments,
        total,
        preceding,
    } = period;
    let due = return_due(form, quarter, &holidays);
    let small = with_return(total, preceding, next_day);
    let paid = total <= paid_by(&payments, first, last, due, due);
    QuarterReturn {
        form,
        due,
        small,
        paid,
        payments,
        holidays,
    }
}

/// The row of an obligation as of a day. None where the obligation ends after 2098, is due after
/// 2099 or reaches 60,000,000,000,000.00, which is none that an account has.
pub(crate) fn due_row(
    obligation: Obligation,
    as_of: Day,
    of_return: &QuarterReturn,
) -> Option<DueRow>
    requires { sum_by payment_cents of_return.now.payments.items < AMOUNTS_END }
    ensures { IfSome result (IsRowBy of_return.now as_of obligation) }
{
    let Obligation {
        first,
        last,
        rule,
        cents,
        due,
    } = obligation;
    if last.year() > LAST_OPEN_YEAR || due.year() > LAST_YEAR || cents.0 >= AMOUNTS_END {
        return None;
    }
    let payments = &of_return.payments;
    let makeup = makeup(of_return.form, rule, last, due, &of_return.holidays);
    let case = Case {
        cents,
        due,
        makeup,
        return_due: of_return.due,
        as_of,
        paid_due: paid_by(payments, first, last, as_of, due),
        paid_makeup: paid_by(payments, first, last, as_of, makeup),
        small: of_return.small,
        quarter_paid: of_return.paid,
    };
    Some(DueRow {
        obligation,
        makeup,
        paid: paid_by(payments, first, last, as_of, as_of),
        verdict: case.verdict(),
    })
}

/// The rows of those of the obligations that begin in the quarter, in their order, as of a day.
/// `Failed` also where an obligation is none that an account has.
pub(crate) fn due_rows(
    alloc: Global,
    quarter: Quarter,
    as_of: Day,
    of_return: &QuarterReturn,
    obligations: &[Obligation],
) -> Result<Vec<DueRow>, StoreFault>
    requires { sum_by payment_cents of_return.now.payments.items < AMOUNTS_END }
    ensures { IfOk result (λ rows. Pairs (IsRowBy of_return.now as_of)
        (filter (begins_in quarter) obligations.now) rows.items) }
{
    let mut rows = Vec::new(alloc);
    for obligation in obligations {
        if begins_in(obligation, quarter) {
            match due_row(*obligation, as_of, of_return) {
                Some(row) => rows.push(row)?,
                None => return Err(StoreFault::Failed),
            }
        }
    }
    Ok(rows)
}
