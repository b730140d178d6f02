//! What a verb asks. Each function reads the fields of a verb in their order, from any source.

ghost use Rattle.std.specs.Prelude.{◌≡◌};
ghost use Rattle.ftd_verbs.specs.Fields.{Tells};
ghost use Rattle.ftd_verbs.specs.Asked.{account_in, add_holiday, agenda, amount_in, answer_in};
ghost use Rattle.ftd_verbs.specs.Asked.{asked, calendar, change_holiday, correct_account};
ghost use Rattle.ftd_verbs.specs.Asked.{correct_report, correct_report_year, day_in, day_or};
ghost use Rattle.ftd_verbs.specs.Asked.{days_in, due_list, enrol, explain, form_in, holidays};
ghost use Rattle.ftd_verbs.specs.Asked.{mark_in, number_in, open_year, owed, pay, payments, post};
ghost use Rattle.ftd_verbs.specs.Asked.{quarter_in, report, report_year, reported, runs};
ghost use Rattle.ftd_verbs.specs.Asked.{last_asked, schedule_b, status, unapplied, void};
ghost use Rattle.ftd_verbs.specs.Asked.{void_pay, days_after, whole_in, years};

use crate::{Field, FieldFault, Fields, Verb};
use ftd_days::{Cents, Day, LAST_NUMBER, Quarter};
use ftd_machine::{
    Account, AccountName, Beginning, Correction, Days, Entry, KeptList, MOST_NUMBER, Question,
    Request, ReturnPeriod,
};
use ftd_rules::{Form, PayRun, Payment};
use std::alloc::Global;

fn account_in<F: Fields>(alloc: Global, fields: &F) -> Result<AccountName, FieldFault>
    ensures { Tells result (account_in (F.said fields.now)) }
{
    match fields.account(alloc, Field::Account)? {
        Some(name) => Ok(name),
        None => Err(FieldFault::Bad(Field::Account)),
    }
}

fn whole_in<F: Fields>(fields: &F, at: Field) -> Result<u32, FieldFault>
    ensures { Tells result (whole_in (F.said fields.now) at) }
{
    fields.whole(at).ok_or(FieldFault::Bad(at))
}

fn day_in<F: Fields>(fields: &F, at: Field) -> Result<Day, FieldFault>
    ensures { Tells result (day_in (F.said fields.now) at) }
{
    fields.day(at).ok_or(FieldFault::Bad(at))
}

fn quarter_in<F: Fields>(fields: &F, at: Field) -> Result<Quarter, FieldFault>
    ensures { Tells result (quarter_in (F.said fields.now) at) }
{
    fields.quarter(at).ok_or(FieldFault::Bad(at))
}

fn amount_in<F: Fields>(fields: &F, at: Field) -> Result<Cents, FieldFault>
    ensures { Tells result (amount_in (F.said fields.now) at) }
{
    fields.amount(at).ok_or(FieldFault::Bad(at))
}

fn mark_in<F: Fields>(fields: &F, at: Field) -> Result<bool, FieldFault>
    ensures { Tells result (mark_in (F.said fields.now) at) }
{
    fields.mark(at).ok_or(FieldFault::Bad(at))
}

fn answer_in<F: Fields>(fields: &F, at: Field) -> Result<bool, FieldFault>
    ensures { Tells result (answer_in (F.said fields.now) at) }
{
    fields.answer(at).ok_or(FieldFault::Bad(at))
}

fn days_in<F: Fields>(alloc: Global, fields: &F) -> Result<Days, FieldFault>
    ensures { Tells result (days_in (F.said fields.now)) }
{
    match fields.days(alloc, Field::Days)? {
        Some(days) => Ok(days),
        None => Err(FieldFault::Bad(Field::Days)),
    }
}

/// The number of a correction, or the greatest where it is left out.
fn number_in<F: Fields>(fields: &F) -> Result<u32, FieldFault>
    ensures { Tells result (number_in (F.said fields.now)) }
{
    if fields.is_left_out(Field::Number) {
        return Ok(MOST_NUMBER);
    }
    whole_in(fields, Field::Number)
}

fn form_in<F: Fields>(fields: &F, at: Field) -> Result<Form, FieldFault>
    ensures { Tells result (form_in (F.said fields.now) at) }
{
    fields.form(at).ok_or(FieldFault::Bad(at))
}

/// The day, or another one where it is left out.
fn day_or<F: Fields>(other: Day, fields: &F, at: Field) -> Result<Day, FieldFault>
    ensures { Tells result (day_or other (F.said fields.now) at) }
{
    if fields.is_left_out(at) {
        return Ok(other);
    }
    day_in(fields, at)
}

/// The day so many days later, or the last day where there is no such day.
fn days_after(count: u32, day: Day) -> Day
    ensures { result ≡ days_after count day }
{
    let left = (LAST_NUMBER - day.number()).unsigned_abs();
    day.plus(left.min(count))
}

/// How many days after the as-of day is the last due date of what is owed, where it is left out.
const A_WEEK: u32 = 7;

/// How many days after the first due date is the last one of an agenda, where it is left out.
const A_MONTH: u32 = 30;

/// A new account.
#[tactic(auto, unfolding(crate::specs::Asked::enrol))]
fn enrol<F: Fields>(alloc: Global, fields: &F) -> Result<Request, FieldFault>
    ensures { Tells result (enrol (F.said fields.now)) }
{
    let account = account_in(alloc, fields)?;
    let start = day_in(fields, Field::Start)?;
    let carried = mark_in(fields, Field::Carried)?;
    let form = form_in(fields, Field::Form)?;
    Ok(Request::Enter(Entry::Account {
        name: account,
        account: Account {
            start,
            carried,
            form,
        },
    }))
}

/// A reported quarter.
#[tactic(auto, unfolding(crate::specs::Asked::report))]
fn report<F: Fields>(alloc: Global, fields: &F) -> Result<Request, FieldFault>
    ensures { Tells result (report (F.said fields.now)) }
{
    let account = account_in(alloc, fields)?;
    let quarter = quarter_in(fields, Field::Quarter)?;
    let cents = amount_in(fields, Field::Amount)?;
    Ok(Request::Enter(Entry::Total {
        account,
        period: ReturnPeriod::Quarter(quarter),
        cents,
    }))
}

/// A pay run.
#[tactic(auto, unfolding(crate::specs::Asked::post))]
fn post<F: Fields>(alloc: Global, fields: &F) -> Result<Request, FieldFault>
    ensures { Tells result (post (F.said fields.now)) }
{
    let account = account_in(alloc, fields)?;
    let number = whole_in(fields, Field::Run)?;
    let payday = day_in(fields, Field::Payday)?;
    let fit = amount_in(fields, Field::Fit)?;
    let ss = amount_in(fields, Field::Ss)?;
    let medicare = amount_in(fields, Field::Medicare)?;
    Ok(Request::Post {
        account,
        number,
        run: PayRun {
            payday,
            fit,
            ss,
            medicare,
        },
    })
}

/// A payment.
#[tactic(auto, unfolding(crate::specs::Asked::pay))]
fn pay<F: Fields>(alloc: Global, fields: &F) -> Result<Request, FieldFault>
    ensures { Tells result (pay (F.said fields.now)) }
{
    let account = account_in(alloc, fields)?;
    let number = whole_in(fields, Field::Payment)?;
    let paid = day_in(fields, Field::Paid)?;
    let for_day = day_in(fields, Field::For)?;
    let cents = amount_in(fields, Field::Amount)?;
    Ok(Request::Pay {
        account,
        number,
        payment: Payment {
            paid,
            for_day,
            cents,
        },
    })
}

/// The schedule of a day.
#[tactic(auto, unfolding(crate::specs::Asked::status))]
fn status<F: Fields>(alloc: Global, fields: &F) -> Result<Request, FieldFault>
    ensures { Tells result (status (F.said fields.now)) }
{
    let account = account_in(alloc, fields)?;
    let day = day_in(fields, Field::Day)?;
    Ok(Request::Question(Question::Status { account, day }))
}

/// What is due for a quarter.
#[tactic(auto, unfolding(crate::specs::Asked::due_list))]
fn due_list<F: Fields>(alloc: Global, fields: &F) -> Result<Request, FieldFault>
    ensures { Tells result (due_list (F.said fields.now)) }
{
    let account = account_in(alloc, fields)?;
    let quarter = quarter_in(fields, Field::Quarter)?;
    let as_of = day_in(fields, Field::AsOf)?;
    Ok(Request::Question(Question::DueList {
        account,
        quarter,
        as_of,
    }))
}

/// What is due until a day and not paid.
#[tactic(auto, unfolding(crate::specs::Asked::owed))]
fn owed<F: Fields>(fields: &F) -> Result<Request, FieldFault>
    ensures { Tells result (owed (F.said fields.now)) }
{
    let as_of = day_in(fields, Field::AsOfToday)?;
    let until = day_or(days_after(A_WEEK, as_of), fields, Field::Until)?;
    Ok(Request::Question(Question::Owed { until, as_of }))
}

/// The holidays of a year.
#[tactic(auto, unfolding(crate::specs::Asked::calendar))]
fn calendar<F: Fields>(alloc: Global, fields: &F) -> Result<Request, FieldFault>
    ensures { Tells result (calendar (F.said fields.now)) }
{
    let year = whole_in(fields, Field::Year)?;
    let days = days_in(alloc, fields)?;
    Ok(Request::Enter(Entry::Calendar { year, days }))
}

/// A holiday that is added.
#[tactic(auto, unfolding(crate::specs::Asked::add_holiday))]
fn add_holiday<F: Fields>(fields: &F) -> Result<Request, FieldFault>
    ensures { Tells result (add_holiday (F.said fields.now)) }
{
    let day = day_in(fields, Field::Day)?;
    Ok(Request::Enter(Entry::Holiday { day }))
}

/// A reported year.
#[tactic(auto, unfolding(crate::specs::Asked::report_year))]
fn report_year<F: Fields>(alloc: Global, fields: &F) -> Result<Request, FieldFault>
    ensures { Tells result (report_year (F.said fields.now)) }
{
    let account = account_in(alloc, fields)?;
    let year = whole_in(fields, Field::Year)?;
    let cents = amount_in(fields, Field::Amount)?;
    Ok(Request::Enter(Entry::Total {
        account,
        period: ReturnPeriod::Year(year),
        cents,
    }))
}

/// A year that is opened.
#[tactic(auto, unfolding(crate::specs::Asked::open_year))]
fn open_year<F: Fields>(alloc: Global, fields: &F) -> Result<Request, FieldFault>
    ensures { Tells result (open_year (F.said fields.now)) }
{
    let account = account_in(alloc, fields)?;
    let year = whole_in(fields, Field::Year)?;
    Ok(Request::Enter(Entry::Year { account, year }))
}

/// A pay run that is made void.
#[tactic(auto, unfolding(crate::specs::Asked::void))]
fn void<F: Fields>(alloc: Global, fields: &F) -> Result<Request, FieldFault>
    ensures { Tells result (void (F.said fields.now)) }
{
    let account = account_in(alloc, fields)?;
    let number = whole_in(fields, Field::RunToVoid)?;
    Ok(Request::Void { account, number })
}

/// A payment that is made void.
#[tactic(auto, unfolding(crate::specs::Asked::void_pay))]
fn void_pay<F: Fields>(alloc: Global, fields: &F) -> Result<Request, FieldFault>
    ensures { Tells result (void_pay (F.said fields.now)) }
{
    let account = account_in(alloc, fields)?;
    let number = whole_in(fields, Field::PaymentToVoid)?;
    Ok(Request::VoidPay { account, number })
}

/// A reported quarter that is corrected.
#[tactic(auto, unfolding(crate::specs::Asked::correct_report))]
fn correct_report<F: Fields>(alloc: Global, fields: &F) -> Result<Request, FieldFault>
    ensures { Tells result (correct_report (F.said fields.now)) }
{
    let account = account_in(alloc, fields)?;
    let quarter = quarter_in(fields, Field::Quarter)?;
    let number = number_in(fields)?;
    let cents = amount_in(fields, Field::Amount)?;
    Ok(Request::Correct {
        number,
        correction: Correction::Total {
            account,
            period: ReturnPeriod::Quarter(quarter),
            cents,
        },
    })
}

/// A reported year that is corrected.
#[tactic(auto, unfolding(crate::specs::Asked::correct_report_year))]
fn correct_report_year<F: Fields>(alloc: Global, fields: &F) -> Result<Request, FieldFault>
    ensures { Tells result (correct_report_year (F.said fields.now)) }
{
    let account = account_in(alloc, fields)?;
    let year = whole_in(fields, Field::Year)?;
    let number = number_in(fields)?;
    let cents = amount_in(fields, Field::Amount)?;
    Ok(Request::Correct {
        number,
        correction: Correction::Total {
            account,
            period: ReturnPeriod::Year(year),
            cents,
        },
    })
}

/// A day that is taken back as a holiday, or made one again.
#[tactic(auto, unfolding(crate::specs::Asked::change_holiday))]
fn change_holiday<F: Fields>(fields: &F) -> Result<Request, FieldFault>
    ensures { Tells result (change_holiday (F.said fields.now)) }
{
    let day = day_in(fields, Field::Day)?;
    let number = number_in(fields)?;
    let is_holiday = answer_in(fields, Field::IsHoliday)?;
    Ok(Request::Correct {
        number,
        correction: Correction::Holiday { day, is_holiday },
    })
}

/// An account that is corrected.
#[tactic(auto, unfolding(crate::specs::Asked::correct_account))]
fn correct_account<F: Fields>(alloc: Global, fields: &F) -> Result<Request, FieldFault>
    ensures { Tells result (correct_account (F.said fields.now)) }
{
    let account = account_in(alloc, fields)?;
    let number = number_in(fields)?;
    let start = day_in(fields, Field::Start)?;
    let carried = mark_in(fields, Field::Carried)?;
    Ok(Request::Correct {
        number,
        correction: Correction::Account {
            account,
            beginning: Beginning { start, carried },
        },
    })
}

/// Why the obligation of a day is so.
#[tactic(auto, unfolding(crate::specs::Asked::explain))]
fn explain<F: Fields>(alloc: Global, fields: &F) -> Result<Request, FieldFault>
    ensures { Tells result (explain (F.said fields.now)) }
{
    let account = account_in(alloc, fields)?;
    let day = day_in(fields, Field::Day)?;
    Ok(Request::Question(Question::Explain { account, day }))
}

/// What is due between two days.
#[tactic(auto, unfolding(crate::specs::Asked::agenda))]
fn agenda<F: Fields>(fields: &F) -> Result<Request, FieldFault>
    ensures { Tells result (agenda (F.said fields.now)) }
{
    let from = day_in(fields, Field::From)?;
    let to = day_or(days_after(A_MONTH, from), fields, Field::To)?;
    let as_of = day_in(fields, Field::AsOfToday)?;
    Ok(Request::Question(Question::Agenda { from, to, as_of }))
}

/// The last day that `unapplied` may ask of, 31 December 2099.
pub fn last_asked() -> Day
    ensures { result ≡ last_asked }
{
    Day::last_of_month(2399)
}

/// Money that counts for nothing, of the days up to one.
#[tactic(auto, unfolding(crate::specs::Asked::unapplied))]
fn unapplied<F: Fields>(fields: &F) -> Result<Request, FieldFault>
    ensures { Tells result (unapplied (F.said fields.now)) }
{
    let until = day_or(last_asked(), fields, Field::LastDay)?;
    Ok(Request::Question(Question::Unapplied { until }))
}

/// The liability of a quarter by day.
#[tactic(auto, unfolding(crate::specs::Asked::schedule_b))]
fn schedule_b<F: Fields>(alloc: Global, fields: &F) -> Result<Request, FieldFault>
    ensures { Tells result (schedule_b (F.said fields.now)) }
{
    let account = account_in(alloc, fields)?;
    let quarter = quarter_in(fields, Field::Quarter)?;
    Ok(Request::Question(Question::ScheduleB { account, quarter }))
}

/// The open years of an account.
#[tactic(auto, unfolding(crate::specs::Asked::years))]
fn years<F: Fields>(alloc: Global, fields: &F) -> Result<Request, FieldFault>
    ensures { Tells result (years (F.said fields.now)) }
{
    let account = account_in(alloc, fields)?;
    Ok(Request::Question(Question::Kept(KeptList::Years { account })))
}

/// The totals that an account reported.
#[tactic(auto, unfolding(crate::specs::Asked::reported))]
fn reported<F: Fields>(alloc: Global, fields: &F) -> Result<Request, FieldFault>
    ensures { Tells result (reported (F.said fields.now)) }
{
    let account = account_in(alloc, fields)?;
    Ok(Request::Question(Question::Kept(KeptList::Reported { account })))
}

/// The holidays of a year.
#[tactic(auto, unfolding(crate::specs::Asked::holidays))]
fn holidays<F: Fields>(fields: &F) -> Result<Request, FieldFault>
    ensures { Tells result (holidays (F.said fields.now)) }
{
    let year = whole_in(fields, Field::Year)?;
    Ok(Request::Question(Question::Kept(KeptList::Holidays { year })))
}

/// The pay runs of a quarter.
#[tactic(auto, unfolding(crate::specs::Asked::runs))]
fn runs<F: Fields>(alloc: Global, fields: &F) -> Result<Request, FieldFault>
    ensures { Tells result (runs (F.said fields.now)) }
{
    let account = account_in(alloc, fields)?;
    let quarter = quarter_in(fields, Field::Quarter)?;
    Ok(Request::Question(Question::Kept(KeptList::Runs { account, quarter })))
}

/// The payments of a quarter.
#[tactic(auto, unfolding(crate::specs::Asked::payments))]
fn payments<F: Fields>(alloc: Global, fields: &F) -> Result<Request, FieldFault>
    ensures { Tells result (payments (F.said fields.now)) }
{
    let account = account_in(alloc, fields)?;
    let quarter = quarter_in(fields, Field::Quarter)?;
    Ok(Request::Question(Question::Kept(KeptList::Payments { account, quarter })))
}

/// What the verb asks, by its fields in their order. An error names the first of them that has no
/// value of its kind, or says that there was no memory.
pub fn read_request<F: Fields>(alloc: Global, verb: Verb, fields: &F) -> Result<Request, FieldFault>
    ensures { Tells result (asked verb (F.said fields.now)) }
{
    match verb {
        Verb::Enrol => enrol(alloc, fields),
        Verb::Calendar => calendar(alloc, fields),
        Verb::AddHoliday => add_holiday(fields),
        Verb::Report => report(alloc, fields),
        Verb::ReportYear => report_year(alloc, fields),
        Verb::OpenYear => open_year(alloc, fields),
        Verb::Post => post(alloc, fields),
        Verb::Void => void(alloc, fields),
        Verb::Pay => pay(alloc, fields),
        Verb::VoidPay => void_pay(alloc, fields),
        Verb::CorrectReport => correct_report(alloc, fields),
        Verb::CorrectReportYear => correct_report_year(alloc, fields),
        Verb::ChangeHoliday => change_holiday(fields),
        Verb::CorrectAccount => correct_account(alloc, fields),
        Verb::Status => status(alloc, fields),
        Verb::Explain => explain(alloc, fields),
        Verb::DueList => due_list(alloc, fields),
        Verb::Agenda => agenda(fields),
        Verb::Owed => owed(fields),
        Verb::Unapplied => unapplied(fields),
        Verb::ScheduleB => schedule_b(alloc, fields),
        Verb::Accounts => Ok(Request::Question(Question::Kept(KeptList::Accounts))),
        Verb::Years => years(alloc, fields),
        Verb::Reported => reported(alloc, fields),
        Verb::Holidays => holidays(fields),
        Verb::Runs => runs(alloc, fields),
        Verb::Payments => payments(alloc, fields),
    }
}
