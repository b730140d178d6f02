//! Why an obligation is so.

ghost use Rattle.std.specs.Prelude.{◌≡◌, ◌≤◌, ◌<◌, IfOk, IfSome, MatchOption};
ghost use Rattle.ftd_days.specs.Calendar.{year_of};
ghost use Rattle.ftd_days.specs.Holidays.{holidays_of};
ghost use Rattle.ftd_rules.specs.Lists.{Has};
ghost use Rattle.ftd_store.specs.Frame.{Calls, Reads};
ghost use Rattle.ftd_machine.specs.Explaining.{IsKindOfDay};
ghost use Rattle.ftd_machine.specs.declared.requests.Question.TheVariants.{Explain};
ghost use Rattle.ftd_machine.specs.declared.requests.Request.TheVariants.{Question};
ghost use Rattle.ftd_entries.specs.Words.{Serves};
ghost use Rattle.ftd_kept.specs.Explained.{AreCounted, AreRunning, IsToldBy, KnowsCovering};
ghost use Rattle.ftd_kept.specs.Explained.{KnowsExplained, KnowsExplanation, KnowsPaydays};
ghost use Rattle.ftd_kept.specs.Explained.{ShowsCovering, ShowsExplained, ShowsExplanation};
ghost use Rattle.ftd_kept.specs.Explained.{ShowsFound};
ghost use Rattle.ftd_rules.specs.Laws.{IsFirstCounted};

use crate::paid::obligation_payments;
use crate::schedules::schedule_on;
use ftd_days::{Cents, Day, Holidays, LAST_OPEN_YEAR, LAST_YEAR};
use ftd_entries::{has_year, known_account};
use ftd_machine::{
    AccountName, Answer, CountedDay, CountedDays, DayKind, ExplainedDay, Explanation, Facts,
    KeptPayment, KeptPayments, Reply, RunningSum, RunningSums, status_check,
};
use ftd_rules::{AMOUNTS_END, DaySum, Form, Obligation, Rule, YearLine, return_due};
use ftd_store::{StoreFault, Tx};
use sqlite::Alter;
use std::alloc::{AllocError, Global};

/// Tells why the obligation is so whose deposit period holds the day. Its obligation, its paydays
/// and its payments are the rows of the tables as they stand, whatever else these hold.
pub fn explain<S: Alter>(
    tx: &mut Tx<'_, S>,
    alloc: Global,
    name: &str,
    day: Day,
) -> Result<Answer, StoreFault>
    ensures call { Calls S.Store tx.old tx.new result (Serves (Question (Explain name.now day))) }
    ensures shows { Calls S.Store tx.old tx.new result (λ answer before after t.
        ShowsExplained name.now day answer t) }
{
    let Ok(owner) = AccountName::copy_of(alloc, name) else {
        return tx.give_up(StoreFault::Memory);
    };
    let account = known_account(tx, alloc, name)?;
    let lines = tx.years(alloc, name)?;
    let there = has_year(&lines, day.year());
    let account = match status_check(name, day, account, there) {
        Ok(account) => account,
        Err(answer) => return Ok(answer),
    };
    let found = explained(tx, alloc, name, account.form, &lines, day)?;
    Ok(Ok(Reply::Told(Facts::Explained(ExplainedDay {
        account: owner,
        day,
        found,
    }))))
}

/// Why the obligation is so whose deposit period holds the day, if one's does, by the account's
/// form and the lines of its open years.
fn explained<S: Alter>(
    tx: &mut Tx<'_, S>,
    alloc: Global,
    name: &str,
    form: Form,
    lines: &[YearLine],
    day: Day,
) -> Result<Option<Explanation>, StoreFault>
    ensures call { Reads S.Store tx.old tx.new result (λ found t.
        KnowsExplained name.now form lines.now day found t
        × ShowsFound name.now form day found t) }
{
    let Some(obligation) = covering(tx, alloc, name, day)? else {
        return Ok(None);
    };
    let explanation = explanation(tx, alloc, name, form, lines, obligation)?;
    Ok(Some(explanation))
}

/// The obligation whose deposit period holds the day.
fn covering<S: Alter>(
    tx: &mut Tx<'_, S>,
    alloc: Global,
    name: &str,
    day: Day,
) -> Result<Option<Obligation>, StoreFault>
    ensures call { Reads S.Store tx.old tx.new result (λ found t.
        KnowsCovering name.now day found t × ShowsCovering name.now day found t) }
{
    let begun = tx.obligations(alloc, name, Day::first_of_month(0), day)?;
    Ok(ends_from(&begun, day))
}

/// The first of the obligations that does not end before the day.
fn ends_from(obligations: &[Obligation], day: Day) -> Option<Obligation>
    ensures { MatchOption result
        ((obligation : _) → Has obligations.now obligation → day ≤ obligation.last → ⊥)
        (λ obligation. Has obligations.now obligation × (day ≤ obligation.last)) }
{
    obligations
        .iter()
        .find(|obligation| day <= obligation.last)
        .copied()
}

/// Why the obligation is so. `Failed` also where it is none that the account has.
fn explanation<S: Alter>(
    tx: &mut Tx<'_, S>,
    alloc: Global,
    name: &str,
    form: Form,
    lines: &[YearLine],
    obligation: Obligation,
) -> Result<Explanation, StoreFault>
    ensures call { Reads S.Store tx.old tx.new result (λ explanation t.
        KnowsExplanation name.now form lines.now obligation explanation t
        × (explanation.obligation ≡ obligation)
        × ShowsExplanation name.now form explanation t) }
{
    let Some(year) = open_year(&obligation) else {
        return tx.give_up(StoreFault::Failed);
    };
    let paydays = paydays(tx, alloc, name, &obligation)?;
    let payments = obligation_payments(tx, alloc, name, &obligation)?;
    let holidays = tx.holidays(alloc, year, year + 1)?;
    match told(alloc, form, lines, &holidays, obligation, paydays, payments) {
        Ok(explanation) => Ok(explanation),
        Err(fault) => tx.give_up(fault),
    }
}

/// The year in which the obligation begins. None where that, or the one in which it ends, comes
/// after 2098, or it is due after 2099: such an obligation is none that an account has.
fn open_year(obligation: &Obligation) -> Option<u32>
    ensures { IfSome result (λ year. (year ≡ year_of obligation.now.first) × (year ≤ LAST_OPEN_YEAR)
        × (year_of obligation.now.last ≤ LAST_OPEN_YEAR)
        × (year_of obligation.now.due ≤ LAST_YEAR)) }
{
    let year = obligation.first.year();
    if year > LAST_OPEN_YEAR
        || obligation.last.year() > LAST_OPEN_YEAR
        || obligation.due.year() > LAST_YEAR
    {
        return None;
    }
    Some(year)
}

/// The paydays of the obligation.
fn paydays<S: Alter>(
    tx: &mut Tx<'_, S>,
    alloc: Global,
    name: &str,
    obligation: &Obligation,
) -> Result<Vec<RunningSum>, StoreFault>
    ensures call { Reads S.Store tx.old tx.new result
        (λ rows. KnowsPaydays name.now obligation.now rows.items) }
{
    let sums = tx.day_sums(alloc, name, obligation.first, obligation.last)?;
    match running_sums(alloc, &sums) {
        Ok(rows) => Ok(rows),
        Err(fault) => tx.give_up(fault),
    }
}

/// The sums, each with what they are together up to it. `Failed` where that reaches
/// 60,000,000,000,000.00, and `Memory` where there was no memory.
fn running_sums(alloc: Global, sums: &[DaySum]) -> Result<Vec<RunningSum>, StoreFault>
    ensures { IfOk result (λ rows. AreRunning 0 sums.now rows.items) }
{
    let mut rows = Vec::new(alloc);
    let mut total = 0;
    for sum in sums {
        if AMOUNTS_END - total <= sum.cents.0 {
            return Err(StoreFault::Failed);
        }
        total += sum.cents.0;
        rows.push(RunningSum {
            day: sum.day,
            cents: sum.cents,
            total: Cents(total),
        })?;
    }
    Ok(rows)
}

/// The explanation by what was read. `Failed` where the year in which the obligation begins is not
/// open, and `Memory` where there was no memory.
fn told(
    alloc: Global,
    form: Form,
    lines: &[YearLine],
    holidays: &Holidays,
    obligation: Obligation,
    paydays: Vec<RunningSum>,
    payments: Vec<KeptPayment>,
) -> Result<Explanation, StoreFault>
    requires first { year_of obligation.first ≤ LAST_OPEN_YEAR }
    requires last { year_of obligation.last ≤ LAST_OPEN_YEAR }
    requires due { year_of obligation.due ≤ LAST_YEAR }
    ensures { IfOk result (IsToldBy form lines.now (holidays_of holidays.now) obligation
        paydays.items payments.items) }
{
    let Some(schedule) = schedule_on(lines, obligation.first) else {
        return Err(StoreFault::Failed);
    };
    let days = counted_days(alloc, &obligation, holidays)?;
    Ok(Explanation {
        obligation,
        kind: schedule.kind,
        reason: schedule.reason,
        paydays: RunningSums::from_vec(paydays),
        days: CountedDays::from_vec(days),
        return_due: return_due(form, obligation.first.quarter(), holidays),
        payments: KeptPayments::from_vec(payments),
    })
}

/// The days that are counted to the obligation's due date, each with what it is.
fn counted_days(
    alloc: Global,
    obligation: &Obligation,
    holidays: &Holidays,
) -> Result<Vec<CountedDay>, AllocError>
    requires last { year_of obligation.now.last ≤ LAST_OPEN_YEAR }
    requires due { year_of obligation.now.due ≤ LAST_YEAR }
    ensures { IfOk result (λ days.
        AreCounted (holidays_of holidays.now) obligation.now days.items) }
{
    let mut days = Vec::new(alloc);
    let mut day = first_counted(obligation);
    while day <= obligation.due {
        days.push(CountedDay {
            day,
            kind: kind_of(day, holidays),
        })?;
        day = day.tomorrow();
    }
    Ok(days)
}

/// The first day that is counted to the obligation's due date.
fn first_counted(obligation: &Obligation) -> Day
    requires { year_of obligation.now.last ≤ LAST_OPEN_YEAR }
    ensures { IsFirstCounted obligation.now.rule obligation.now.last result }
{
    let last = obligation.last;
    match obligation.rule {
        Rule::Monthly => Day::first_of_month(last.month_number() + 1).plus(14),
        Rule::Semiweekly => last.interval_close().tomorrow(),
        Rule::NextDay => last.tomorrow(),
    }
}

/// What the day is to the counting of business days.
#[tactic(auto, using(ftd_machine::proofs::Counting::no_business))]
fn kind_of(day: Day, holidays: &Holidays) -> DayKind
    ensures { IsKindOfDay (holidays_of holidays.now) day result }
{
    let weekday = day.weekday().index();
    if weekday == 5 {
        DayKind::Saturday
    } else if weekday == 6 {
        DayKind::Sunday
    } else if holidays.is_business(day) {
        DayKind::Business
    } else {
        DayKind::Holiday
    }
}
