//! Years are opened.

ghost use Rattle.std.specs.Prelude.{◌≡◌};
ghost use Rattle.std.specs.List.{list_any};
ghost use Rattle.ftd_store.specs.Frame.{Calls, Reads};
ghost use Rattle.ftd_machine.specs.declared.requests.Request.TheVariants.{Enter};
ghost use Rattle.ftd_machine.specs.declared.requests.Entry.TheVariants as entry;
ghost use Rattle.ftd_entries.specs.Opening.{IsNextLine, KnowsToOpen, turns_into};
ghost use Rattle.ftd_entries.specs.Words.{Serves};

use crate::accounts::known_account;
use crate::lookbacks::lookback_total;
use crate::years::has_year;
use ftd_days::Cents;
use ftd_machine::{Account, Answer, Refusal, Reply, open_year_check};
use ftd_rules::{AMOUNTS_END, YearLine, opening};
use ftd_store::{StoreFault, Tx};
use sqlite::Alter;
use std::alloc::Global;

/// What is kept of an account and of a year before the year is opened.
#[derive(Drop)]
struct KnownYear {
    /// The account, if it is enrolled.
    account: Option<Account>,
    /// The lines of its open years, by year.
    lines: Vec<YearLine>,
    /// Whether the calendar of the year is given.
    given: bool,
    /// Whether that of the next year is.
    next: bool,
}

/// What is kept of the account and of the year.
fn known_year<S: Alter>(
    tx: &mut Tx<'_, S>,
    alloc: Global,
    name: &str,
    year: u32,
) -> Result<KnownYear, StoreFault>
    ensures call { Reads S.Store tx.old tx.new result (KnowsToOpen name.now year) }
{
    let account = known_account(tx, alloc, name)?;
    let lines = tx.years(alloc, name)?;
    let given = tx.calendar(alloc, year)?;
    let next = tx.calendar(alloc, year.saturating_add(1))?;
    Ok(KnownYear {
        account,
        lines,
        given: given.is_some(),
        next: next.is_some(),
    })
}

/// Whether the year before has a turn.
fn has_turned(lines: &[YearLine], year: u32) -> bool
    ensures { result ≡ list_any (turns_into year) lines.now }
{
    lines.iter().any(|line| line.year < year && year - line.year == 1 && line.turn.is_some())
}

/// The line of a year that is opened after these: with its lookback total, carried as the account
/// is if it is the first, and without a turn.
fn next_line(lines: &[YearLine], carried: bool, year: u32, total: Cents) -> YearLine
    ensures { IsNextLine carried lines.now year total result }
{
    let carried = lines.is_empty() && carried;
    let turned = has_turned(lines, year);
    YearLine {
        year,
        lookback: total,
        carried,
        opening: opening(total, carried || turned),
        turn: None,
    }
}

/// Opens the year of the account.
pub fn open_year<S: Alter>(
    tx: &mut Tx<'_, S>,
    alloc: Global,
    name: &str,
    year: u32,
) -> Result<Answer, StoreFault>
    ensures call { Calls S.Store tx.old tx.new result (Serves (Enter (entry.Year name.now year))) }
{
    let known = known_year(tx, alloc, name, year)?;
    let there = has_year(&known.lines, year);
    let checked = open_year_check(name, year, known.account, there, known.given, known.next);
    let account = match checked {
        Ok(account) => account,
        Err(answer) => return Ok(answer),
    };
    let carried = account.carried;
    let total = match lookback_total(tx, alloc, name, account, year)? {
        Ok(total) if total.0 < AMOUNTS_END => total,
        Ok(_) => return tx.give_up(StoreFault::Failed),
        Err(refusal) => return Ok(Err(refusal)),
    };
    if !known.lines.is_empty() && !has_year(&known.lines, year - 1) {
        return Ok(Err(Refusal::YearNotOpen(year - 1)));
    }
    tx.put_year(name, next_line(&known.lines, carried, year, total))?;
    Ok(Ok(Reply::Done))
}
