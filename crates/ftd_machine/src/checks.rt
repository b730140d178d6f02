//! The checks of each request, in the order in which they decide. Each function passes, with what
//! it found where something rests on that, or fails with what the first check that answers says.
//! None takes memory.

ghost use Rattle.std.specs.Prelude.{◌≡◌, Ok, Err, Some, None, true, false, MatchResult};
ghost use Rattle.std.specs.Prelude.{if◌then◌else◌, option_copied};
ghost use Rattle.ftd_machine.specs.Checks.{PassesWith, Passes};
ghost use Rattle.ftd_machine.specs.Requests.{is_form, same_account, same_run, same_payment};
ghost use Rattle.ftd_machine.specs.Requests.{differs_for, starts_in_time};
ghost use Rattle.ftd_machine.specs.Requests.{enrol_checks, calendar_checks, add_holiday_checks};
ghost use Rattle.ftd_machine.specs.Requests.{report_checks, open_year_checks};
ghost use Rattle.ftd_machine.specs.Requests.{post_checks, void_checks, pay_checks};
ghost use Rattle.ftd_machine.specs.Requests.{void_payment_checks, status_checks, due_list_checks};
ghost use Rattle.ftd_machine.specs.Requests.{schedule_b_checks, agenda_checks, owed_checks};
ghost use Rattle.ftd_machine.specs.Requests.{holidays_checks, kept_of_checks, unapplied_checks};
ghost use Rattle.ftd_machine.specs.Requests.{kept_in_quarter_checks};

use crate::entries::{Account, ReturnPeriod};
use crate::limits::{
    MOST_ENTRIES, are_amounts, can_be_opened, can_be_reported, can_have_calendar, is_amount,
    is_before_end, is_calendar, is_number,
};
use crate::replies::{Refusal, Reply};
use ftd_days::{Cents, Day, LAST_OPEN_YEAR, MOST_HOLIDAYS, Quarter};
use ftd_rules::{Form, PayRun, Payment, Voidable, is_account_name};

/// What a request is answered.
pub type Answer = Result<Reply, Refusal>;

/// The request is refused unless this holds.
pub(crate) fn needs(holds: bool, refusal: Refusal) -> Result<(), Answer>
    ensures { MatchResult result (λ _. holds ≡ true)
        (λ answer. (holds ≡ false) × (answer ≡ Err refusal)) }
{
    if holds { Ok(()) } else { Err(Err(refusal)) }
}

/// What was asked for was done before if this holds.
fn unless_done(done: bool) -> Result<(), Answer>
    ensures { MatchResult result (λ _. done ≡ false)
        (λ answer. (done ≡ true) × (answer ≡ Ok Reply.Already)) }
{
    if done {
        Err(Ok(Reply::Already))
    } else {
        Ok(())
    }
}

/// Done before, or known with other content.
pub(crate) fn known_as(same: bool, differs: Refusal) -> Answer
    ensures { result ≡ (if same then Ok Reply.Already else Err differs) }
{
    if same {
        Ok(Reply::Already)
    } else {
        Err(differs)
    }
}

/// Whether it is this form.
pub(crate) fn is_form(form: Form, other: Form) -> bool
    ensures { result ≡ is_form form other }
{
    match (form, other) {
        (Form::F941, Form::F941) | (Form::F943, Form::F943) => true,
        (Form::F941, Form::F943) | (Form::F943, Form::F941) => false,
    }
}

/// Whether the account that is known has this content.
fn is_same_account(known: &Account, account: &Account) -> bool
    ensures { result ≡ same_account account.now known.now }
{
    known.start == account.start
        && known.carried == account.carried
        && is_form(known.form, account.form)
}

/// The checks of an account that is enrolled, where this is known under its name.
pub fn enrol_check(name: &str, account: &Account, known: Option<Account>) -> Result<(), Answer>
    ensures { Passes (enrol_checks name.now account.now known) result }
{
    needs(is_account_name(name.as_bytes()), Refusal::BadName)?;
    needs(account.start.year() <= LAST_OPEN_YEAR, Refusal::BadDay)?;
    if let Some(known) = known {
        let same = is_same_account(&known, account);
        return Err(known_as(same, Refusal::AccountDiffers));
    }
    Ok(())
}

/// The checks of the holidays of a year, where these are known of it.
pub fn calendar_check(year: u32, days: &[Day], known: Option<&[Day]>) -> Result<(), Answer>
    ensures { Passes (calendar_checks year days.now (option_copied known.entry)) result }
{
    needs(can_have_calendar(year), Refusal::BadYear)?;
    needs(is_calendar(year, days), Refusal::BadCalendar)?;
    if let Some(known) = known {
        return Err(known_as(known == days, Refusal::CalendarDiffers));
    }
    Ok(())
}

/// The checks of a holiday that is added, where these are the holidays that were given of its year,
/// if any were, and those that were added to it.
pub fn add_holiday_check(day: Day, calendar: Option<&[Day]>, added: &[Day]) -> Result<(), Answer>
    ensures { Passes (add_holiday_checks day (option_copied calendar.entry) added.now) result }
{
    let year = day.year();
    needs(can_have_calendar(year), Refusal::BadDay)?;
    unless_done(added.contains(&day))?;
    let Some(calendar) = calendar else {
        return Err(Err(Refusal::CalendarMissing(year)));
    };
    unless_done(calendar.contains(&day))?;
    if calendar.len() >= MOST_HOLIDAYS || added.len() >= MOST_HOLIDAYS - calendar.len() {
        return Err(Err(Refusal::BadCalendar));
    }
    Ok(())
}

/// Whether the employer starts before the period ends.
fn starts_in_time(period: &ReturnPeriod, account: &Account) -> bool
    ensures { result ≡ starts_in_time period.now account.now }
{
    match period {
        ReturnPeriod::Quarter(quarter) => is_before_end(account.start, *quarter),
        ReturnPeriod::Year(year) => account.start.year() <= *year,
    }
}

/// The refusal of a total that was reported with another amount.
fn differs_for(period: &ReturnPeriod) -> Refusal
    ensures { result ≡ differs_for period.now }
{
    match period {
        ReturnPeriod::Quarter(_) => Refusal::QuarterDiffers,
        ReturnPeriod::Year(_) => Refusal::YearDiffers,
    }
}

/// The checks of a total that is reported, where this is known of the account and of the period.
pub fn report_check(
    name: &str,
    period: &ReturnPeriod,
    cents: Cents,
    account: Option<Account>,
    known: Option<Cents>,
) -> Result<(), Answer>
    ensures { Passes (report_checks name.now period.now cents account known) result }
{
    needs(is_account_name(name.as_bytes()), Refusal::BadName)?;
    needs(can_be_reported(period.year()), Refusal::BadYear)?;
    needs(is_amount(cents), Refusal::BadCents)?;
    let account = account.ok_or(Err(Refusal::UnknownAccount))?;
    needs(is_form(account.form, period.form()), Refusal::WrongForm)?;
    if let Some(known) = known {
        return Err(known_as(known.0 == cents.0, differs_for(period)));
    }
    needs(starts_in_time(period, &account), Refusal::BeforeStart)
}

/// The checks of a year that is opened, up to those of its lookback period and of the year before:
/// where this is known of the account, whether the year is open, and whether its calendar and that
/// of the next year are given. They find the account.
pub fn open_year_check(
    name: &str,
    year: u32,
    account: Option<Account>,
    is_open: bool,
    has_calendar: bool,
    has_next: bool,
) -> Result<Account, Answer>
    ensures { PassesWith (open_year_checks name.now year account is_open has_calendar has_next)
        (λ found. account ≡ Some found) result }
{
    needs(is_account_name(name.as_bytes()), Refusal::BadName)?;
    needs(can_be_opened(year), Refusal::BadYear)?;
    let account = account.ok_or(Err(Refusal::UnknownAccount))?;
    unless_done(is_open)?;
    needs(account.start.year() <= year, Refusal::BeforeStart)?;
    needs(has_calendar, Refusal::CalendarMissing(year))?;
    needs(has_next, Refusal::CalendarMissing(year + 1))?;
    Ok(account)
}

/// Whether the run that is known has this content, voided or not.
fn is_same_run(known: &PayRun, run: &PayRun) -> bool
    ensures { result ≡ same_run run.now (record { value = known.now; voided = false }) }
{
    known.payday == run.payday
        && known.fit.0 == run.fit.0
        && known.ss.0 == run.ss.0
        && known.medicare.0 == run.medicare.0
}

/// The checks of a pay run, where this is known of the account, of the run's number, whether the
/// year of its payday is open, and how many runs the account has. They find the account.
pub fn post_check(
    name: &str,
    number: u32,
    run: &PayRun,
    account: Option<Account>,
    known: Option<Voidable<PayRun>>,
    is_open: bool,
    count: u32,
) -> Result<Account, Answer>
    ensures { PassesWith (post_checks name.now number run.now account known is_open count)
        (λ found. account ≡ Some found) result }
{
    needs(is_account_name(name.as_bytes()), Refusal::BadName)?;
    needs(can_be_opened(run.payday.year()), Refusal::BadDay)?;
    needs(are_amounts(run), Refusal::BadCents)?;
    needs(is_number(number), Refusal::BadNumber)?;
    let account = account.ok_or(Err(Refusal::UnknownAccount))?;
    if let Some(known) = known {
        let same = is_same_run(&known.value, run);
        return Err(known_as(same, Refusal::RunDiffers));
    }
    needs(account.start <= run.payday, Refusal::BeforeStart)?;
    needs(is_open, Refusal::YearNotOpen(run.payday.year()))?;
    needs(count < MOST_ENTRIES, Refusal::TooManyRuns)?;
    Ok(account)
}

/// The checks of a run that is voided, where this is known of the account and of the number. They
/// find the account and the run.
pub fn void_check(
    name: &str,
    number: u32,
    account: Option<Account>,
    known: Option<Voidable<PayRun>>,
) -> Result<(Account, PayRun), Answer>
    ensures { PassesWith (void_checks name.now number account known)
        (λ found. (account ≡ Some found.0)
        × (known ≡ Some (record { value = found.1; voided = false }))) result }
{
    needs(is_account_name(name.as_bytes()), Refusal::BadName)?;
    needs(is_number(number), Refusal::BadNumber)?;
    let account = account.ok_or(Err(Refusal::UnknownAccount))?;
    let known = known.ok_or(Err(Refusal::UnknownRun))?;
    unless_done(known.voided)?;
    Ok((account, known.value))
}

/// Whether the payment that is known has this content, voided or not.
fn is_same_payment(known: &Payment, payment: &Payment) -> bool
    ensures { result ≡ same_payment payment.now (record { value = known.now; voided = false }) }
{
    known.paid == payment.paid
        && known.for_day == payment.for_day
        && known.cents.0 == payment.cents.0
}

/// The checks of a payment, where this is known of the account, of the payment's number, whether
/// the year of the day that it is for is open, and how many payments the account has.
pub fn pay_check(
    name: &str,
    number: u32,
    payment: &Payment,
    account: Option<Account>,
    known: Option<Voidable<Payment>>,
    is_open: bool,
    count: u32,
) -> Result<(), Answer>
    ensures { Passes (pay_checks name.now number payment.now account known is_open count) result }
{
    needs(is_account_name(name.as_bytes()), Refusal::BadName)?;
    let paid = can_have_calendar(payment.paid.year());
    needs(
        paid && can_be_opened(payment.for_day.year()),
        Refusal::BadDay,
    )?;
    needs(
        1 <= payment.cents.0 && is_amount(payment.cents),
        Refusal::BadCents,
    )?;
    needs(is_number(number), Refusal::BadNumber)?;
    let account = account.ok_or(Err(Refusal::UnknownAccount))?;
    if let Some(known) = known {
        let same = is_same_payment(&known.value, payment);
        return Err(known_as(same, Refusal::PaymentDiffers));
    }
    needs(account.start <= payment.for_day, Refusal::BeforeStart)?;
    needs(is_open, Refusal::YearNotOpen(payment.for_day.year()))?;
    needs(count < MOST_ENTRIES, Refusal::TooManyPayments)
}

/// The checks of a payment that is voided, where this is known of the account and of the number.
pub fn void_payment_check(
    name: &str,
    number: u32,
    account: Option<Account>,
    known: Option<Voidable<Payment>>,
) -> Result<(), Answer>
    ensures { Passes (void_payment_checks name.now number account known) result }
{
    needs(is_account_name(name.as_bytes()), Refusal::BadName)?;
    needs(is_number(number), Refusal::BadNumber)?;
    needs(account.is_some(), Refusal::UnknownAccount)?;
    let known = known.ok_or(Err(Refusal::UnknownPayment))?;
    unless_done(known.voided)
}

/// The checks of a day whose deposit schedule is asked for, where this is known of the account, and
/// whether the day's year is open. They find the account.
pub fn status_check(
    name: &str,
    day: Day,
    account: Option<Account>,
    is_open: bool,
) -> Result<Account, Answer>
    ensures { PassesWith (status_checks name.now day account is_open)
        (λ found. account ≡ Some found) result }
{
    needs(is_account_name(name.as_bytes()), Refusal::BadName)?;
    needs(can_be_opened(day.year()), Refusal::BadDay)?;
    let account = account.ok_or(Err(Refusal::UnknownAccount))?;
    needs(is_open, Refusal::YearNotOpen(day.year()))?;
    Ok(account)
}

/// The checks of a quarter whose due list is asked for as of a day, where this is known of the
/// account, and whether the quarter's year is open. They find the account.
pub fn due_list_check(
    name: &str,
    quarter: Quarter,
    as_of: Day,
    account: Option<Account>,
    is_open: bool,
) -> Result<Account, Answer>
    ensures { PassesWith (due_list_checks name.now quarter as_of account is_open)
        (λ found. account ≡ Some found) result }
{
    needs(is_account_name(name.as_bytes()), Refusal::BadName)?;
    needs(can_be_opened(quarter.year()), Refusal::BadYear)?;
    needs(can_have_calendar(as_of.year()), Refusal::BadDay)?;
    let account = account.ok_or(Err(Refusal::UnknownAccount))?;
    needs(is_open, Refusal::YearNotOpen(quarter.year()))?;
    Ok(account)
}

/// The checks of a quarter whose liability by day is asked for, where this is known of the account,
/// and whether the quarter's year is open.
pub fn schedule_b_check(
    name: &str,
    quarter: Quarter,
    account: Option<Account>,
    is_open: bool,
) -> Result<(), Answer>
    ensures { Passes (schedule_b_checks name.now quarter account is_open) result }
{
    needs(is_account_name(name.as_bytes()), Refusal::BadName)?;
    needs(can_be_opened(quarter.year()), Refusal::BadYear)?;
    let account = account.ok_or(Err(Refusal::UnknownAccount))?;
    needs(is_form(account.form, Form::F941), Refusal::WrongForm)?;
    needs(is_open, Refusal::YearNotOpen(quarter.year()))
}

/// The checks of two days between which what is due over all accounts is asked for, as of a day.
pub fn agenda_check(from: Day, to: Day, as_of: Day) -> Result<(), Answer>
    ensures { Passes (agenda_checks from to as_of) result }
{
    let both = can_have_calendar(from.year()) && can_have_calendar(to.year());
    needs(both, Refusal::BadDay)?;
    needs(can_have_calendar(as_of.year()), Refusal::BadDay)
}

/// The checks of a day until which what is due and not paid is asked for, as of a day.
pub fn owed_check(until: Day, as_of: Day) -> Result<(), Answer>
    ensures { Passes (owed_checks until as_of) result }
{
    needs(can_have_calendar(until.year()), Refusal::BadDay)?;
    needs(can_have_calendar(as_of.year()), Refusal::BadDay)
}

/// The checks of a day until which money that counts for nothing is asked for.
pub fn unapplied_check(until: Day) -> Result<(), Answer>
    ensures { Passes (unapplied_checks until) result }
{
    needs(can_have_calendar(until.year()), Refusal::BadDay)
}

/// The checks of an account of which what is kept is asked for, where this is known of it. They
/// find the account.
pub fn kept_of_check(name: &str, account: Option<Account>) -> Result<Account, Answer>
    ensures { PassesWith (kept_of_checks name.now account) (λ found. account ≡ Some found) result }
{
    needs(is_account_name(name.as_bytes()), Refusal::BadName)?;
    let account = account.ok_or(Err(Refusal::UnknownAccount))?;
    Ok(account)
}

/// The checks of an account and a quarter of which the runs or payments are asked for, where this
/// is known of the account.
pub fn kept_in_quarter_check(
    name: &str,
    quarter: Quarter,
    account: Option<Account>,
) -> Result<(), Answer>
    ensures { Passes (kept_in_quarter_checks name.now quarter account) result }
{
    needs(is_account_name(name.as_bytes()), Refusal::BadName)?;
    needs(can_be_opened(quarter.year()), Refusal::BadYear)?;
    needs(account.is_some(), Refusal::UnknownAccount)
}

/// The checks of a year whose holidays are asked for, where its calendar was given or not.
pub fn holidays_check(year: u32, is_given: bool) -> Result<(), Answer>
    ensures { Passes (holidays_checks year is_given) result }
{
    needs(can_have_calendar(year), Refusal::BadYear)?;
    needs(is_given, Refusal::CalendarMissing(year))
}
