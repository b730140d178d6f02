//! What can be done about a refusal: lines below it, each of which begins with `hint: `.

ghost use Rattle.std.specs.Prelude.{◌≡◌, ◌++◌, codes};
ghost use Rattle.std.specs.Fmt.{decimal};
ghost use Rattle.std.specs.List.{flat_map, list_all};
ghost use Rattle.ftd_ports.specs.Writing.{Writes};
ghost use Rattle.ftd_replies.specs.Differing.{difference_text};
ghost use Rattle.ftd_replies.specs.Hints.{account_in, calendar_text};
ghost use Rattle.ftd_replies.specs.Commands.{command_of, command_on, file_text, is_bare};
ghost use Rattle.ftd_replies.specs.Commands.{is_plain};
ghost use Rattle.ftd_replies.specs.Hints.{correct_text, days_in, days_text};
ghost use Rattle.ftd_replies.specs.Hints.{entry_otherwise};
ghost use Rattle.ftd_replies.specs.Hints.{differing_text, enrolled_as};
ghost use Rattle.ftd_replies.specs.Hints.{first_beside, first_text, form_text};
ghost use Rattle.ftd_replies.specs.Hints.{hint_of, hint_text, hints_text};
ghost use Rattle.ftd_replies.specs.Hints.{left_out_text, meant_line, new_text};
ghost use Rattle.ftd_replies.specs.Hints.{next_text, number_in};
ghost use Rattle.ftd_replies.specs.Hints.{quarter_hint, said_text, told_text, years_text};
ghost use Rattle.ftd_replies.specs.Hints.{total_otherwise};

use crate::differing::{Differing, write_difference};
use crate::enrolment::{Enrolment, write_enrolment};
use crate::questions::{CALENDARS_YEARS, PAYDAYS_DAYS, PAYDAYS_YEARS, days_asked, years_asked};
use crate::refusals::write_refusal;
use ftd_answers::{day_bytes, quarter_bytes};
use ftd_days::{Day, Quarter};
use ftd_machine::{AccountName, Correction, Entry, Refusal, Request, ReturnPeriod};
use ftd_ports::{Target, WriteFault, write_all, write_pieces};
use itoa::Buffer;

/// What was asked of the desk for the hints of a refusal.
#[derive(Drop)]
pub enum HintFacts {
    /// Nothing.
    Nothing,
    /// The quarters of the lookback period whose totals are not reported.
    Missing(Vec<Quarter>),
    /// The days that the calendar was given with.
    Given(Vec<Day>),
    /// The first of the account's years. The year that is not open lies before it.
    Begins(u32),
    /// The account whose name is nearest to the one that is unknown.
    Meant(AccountName),
    /// The run or the payment that has the number.
    Differs(Differing),
    /// As what the account is enrolled, and whether it can be corrected.
    Enrolled(Enrolment),
}

/// Writes the line of the refusal of a request to the desk of this file, and its hints below it.
#[tactic(auto, using(ftd_ports::proofs::WritingFacts::written_in_parts), unfolding(crate::specs::Hints::told_text))]
pub fn write_told<W: Target>(
    db: &str,
    request: &Request,
    refusal: Refusal,
    known: &HintFacts,
    target: &mut W,
) -> Result<(), WriteFault>
    ensures { Writes result (W.taken target.old) (W.taken target.new)
        (W.failed target.new) (told_text db.now request.now refusal known.now) }
{
    write_refusal(&refusal, target)?;
    write_hints(db, request, refusal, known, target)
}

/// Writes what can be done about the refusal of a request to the desk of this file: lines that
/// begin with `hint: `. There is none for want of memory and a fault of the store.
#[tactic(auto, unfolding(crate::specs::Hints::hints_text))]
pub fn write_hints<W: Target>(
    db: &str,
    request: &Request,
    refusal: Refusal,
    known: &HintFacts,
    target: &mut W,
) -> Result<(), WriteFault>
    ensures { Writes result (W.taken target.old) (W.taken target.new)
        (W.failed target.new) (hints_text db.now request.now refusal known.now) }
{
    match known {
        HintFacts::Nothing => write_hint(db, request, refusal, target),
        HintFacts::Missing(quarters) => write_missing(db, account_in(request), quarters, target),
        HintFacts::Given(given) => write_differing(db, days_in(request), given, target),
        HintFacts::Begins(first) => write_first(*first, target),
        HintFacts::Meant(name) => write_meant(db, request, refusal, name.as_str(), target),
        HintFacts::Differs(differing) => write_differs(db, request, refusal, differing, target),
        HintFacts::Enrolled(enrolment) => {
            write_enrolment(db, account_in(request), enrolment, target)
        }
    }
}

/// Writes which account may be meant.
fn write_meant_line<W: Target>(name: &str, target: &mut W) -> Result<(), WriteFault>
    ensures { Writes result (W.taken target.old) (W.taken target.new)
        (W.failed target.new) (meant_line name.now) }
{
    let name = name.as_bytes();
    write_pieces(target, &[b"hint: is ", name, b" meant?\n"])
}

/// Writes which account may be meant, and what can be done if it is not.
#[tactic(auto, using(ftd_ports::proofs::WritingFacts::written_in_parts))]
fn write_meant<W: Target>(
    db: &str,
    request: &Request,
    refusal: Refusal,
    name: &str,
    target: &mut W,
) -> Result<(), WriteFault>
    ensures { Writes result (W.taken target.old) (W.taken target.new)
        (W.failed target.new)
        (meant_line name.now ++ hint_text db.now request.now refusal) }
{
    write_meant_line(name, target)?;
    write_hint(db, request, refusal, target)
}

/// Writes the first field that differs from what has the number, and what can be done about it.
#[tactic(auto, using(ftd_ports::proofs::WritingFacts::written_in_parts))]
fn write_differs<W: Target>(
    db: &str,
    request: &Request,
    refusal: Refusal,
    differing: &Differing,
    target: &mut W,
) -> Result<(), WriteFault>
    ensures { Writes result (W.taken target.old) (W.taken target.new)
        (W.failed target.new) (codes "hint: " ++ (difference_text differing.now
        ++ (codes "\n" ++ hint_text db.now request.now refusal))) }
{
    write_all(target, b"hint: ")?;
    write_difference(differing, target)?;
    write_all(target, b"\n")?;
    write_hint(db, request, refusal, target)
}

/// Whether the byte needs no quotes in a command.
fn is_plain(byte: u8) -> bool
    ensures { result ≡ is_plain byte }
{
    byte.is_ascii_alphanumeric() || byte == b'.' || byte == b'_' || byte == b'/' || byte == b'-'
}

/// Whether all bytes are such.
fn are_plain(bytes: &[u8]) -> bool
    ensures { result ≡ list_all is_plain bytes.now }
{
    bytes.iter().all(|byte| is_plain(*byte))
}

/// Whether a file's name needs no quotes, and is no option.
fn is_bare(name: &[u8]) -> bool
    ensures { result ≡ is_bare name.now }
{
    match name {
        [] => false,
        [first, ..] => *first != b'-' && are_plain(name),
    }
}

/// The file, where its name needs no quotes, or else `FILE`.
pub(crate) fn file_bytes(db: &str) -> &[u8]
    ensures { result.now ≡ file_text db.now }
{
    if is_bare(db.as_bytes()) {
        db.as_bytes()
    } else {
        b"FILE"
    }
}

/// The account that the request names. The empty text where it names none.
pub fn account_in(request: &Request) -> &str
    ensures { result.now ≡ account_in request.now }
{
    match request {
        Request::Enter(Entry::Calendar { .. } | Entry::Holiday { .. }) => "",
        Request::Enter(Entry::Account { name, .. }) => name.as_str(),
        Request::Enter(Entry::Total { account, .. } | Entry::Year { account, .. }) => {
            account.as_str()
        }
        Request::Post { account, .. }
        | Request::Void { account, .. }
        | Request::Pay { account, .. }
        | Request::VoidPay { account, .. } => account.as_str(),
        Request::Correct { correction, .. } => match correction {
            Correction::Total { account, .. } | Correction::Account { account, .. } => {
                account.as_str()
            }
            Correction::Holiday { .. } => "",
        },
        Request::Question(question) => match question.account() {
            Some(account) => account.as_str(),
            None => "",
        },
    }
}

/// The number of the run or the payment that the request adds. 0 where it adds none.
fn number_in(request: &Request) -> u32
    ensures { result ≡ number_in request.now }
{
    match request {
        Request::Post { number, .. } | Request::Pay { number, .. } => *number,
        _ => 0,
    }
}

/// The days of the request's calendar.
fn days_in(request: &Request) -> &[Day]
    ensures { result.now ≡ days_in request.now }
{
    if let Request::Enter(Entry::Calendar { days, .. }) = request {
        days.as_slice()
    } else {
        &[]
    }
}

/// What is said of a year out of range.
fn years_said(request: &Request) -> &'static [u8]
    ensures { result.now ≡ years_text request.now }
{
    match request {
        Request::Enter(Entry::Calendar { .. }) => { CALENDARS_YEARS }
        Request::Enter(Entry::Total { .. })
        | Request::Correct {
            correction: Correction::Total { .. },
            ..
        } => b"hint: the years of reported totals are 1999 to 2098\n",
        Request::Question(question) => years_asked(question),
        _ => PAYDAYS_YEARS,
    }
}

/// What is said of a day out of range.
fn days_said(request: &Request) -> &'static [u8]
    ensures { result.now ≡ days_text request.now }
{
    match request {
        Request::Enter(Entry::Account { .. })
        | Request::Correct {
            correction: Correction::Account { .. },
            ..
        } => b"hint: an employer's first day is not after 2098-12-31\n",
        Request::Enter(Entry::Holiday { .. })
        | Request::Correct {
            correction: Correction::Holiday { .. },
            ..
        } => b"hint: the days of holidays are those of 2001 to 2099\n",
        Request::Pay { .. } => {
            b"hint: a payment is made in 2001 to 2099, for a day of 2001 to 2098\n"
        }
        Request::Question(question) => days_asked(question),
        _ => PAYDAYS_DAYS,
    }
}

/// What is said of the days of a calendar.
fn calendar_said(request: &Request) -> &'static [u8]
    ensures { result.now ≡ calendar_text request.now }
{
    if let Request::Enter(Entry::Holiday { .. }) = request {
        b"hint: a year has at most 60 holidays\n"
    } else {
        b"hint: give at most 60 days, all in that year, in ascending order\n"
    }
}

/// What is said of the account's form.
fn form_said(request: &Request) -> &'static [u8]
    ensures { result.now ≡ form_text request.now }
{
    match request {
        Request::Enter(
            Entry::Total {
                period: ReturnPeriod::Quarter(_),
                ..
            },
        ) => b"hint: this account files Form 943: use ftd report-year\n",
        Request::Enter(
            Entry::Total {
                period: ReturnPeriod::Year(_),
                ..
            },
        ) => b"hint: this account files Form 941: use ftd report\n",
        Request::Correct {
            correction: Correction::Total {
                period: ReturnPeriod::Quarter(_),
                ..
            },
            ..
        } => b"hint: this account files Form 943: use ftd correct-report-year\n",
        Request::Correct {
            correction: Correction::Total {
                period: ReturnPeriod::Year(_),
                ..
            },
            ..
        } => b"hint: this account files Form 941: use ftd correct-report\n",
        _ => b"hint: this account files Form 943, which has no Schedule B\n",
    }
}

/// Writes a command on the file with a word behind it.
pub(crate) fn write_on<W: Target>(
    before: &[u8],
    db: &str,
    word: &[u8],
    after: &[u8],
    target: &mut W,
) -> Result<(), WriteFault>
    ensures { Writes result (W.taken target.old) (W.taken target.new)
        (W.failed target.new) (command_on before.now db.now word.now after.now) }
{
    let db = file_bytes(db);
    write_pieces(target, &[before, db, b" ", word, after])
}

/// Writes a command on the file with an account and a word behind it.
pub(crate) fn write_of<W: Target>(
    before: &[u8],
    db: &str,
    account: &str,
    word: &[u8],
    after: &[u8],
    target: &mut W,
) -> Result<(), WriteFault>
    ensures { Writes result (W.taken target.old) (W.taken target.new)
        (W.failed target.new) (command_of before.now db.now account.now word.now after.now) }
{
    let db = file_bytes(db);
    write_pieces(
        target,
        &[before, db, b" ", account.as_bytes(), b" ", word, after],
    )
}

/// The same, where the word is a number.
fn write_number<W: Target>(
    before: &[u8],
    db: &str,
    account: &str,
    number: u32,
    after: &[u8],
    target: &mut W,
) -> Result<(), WriteFault>
    ensures { Writes result (W.taken target.old) (W.taken target.new) (W.failed target.new)
        (command_of before.now db.now account.now (decimal number) after.now) }
{
    let mut digits = Buffer::new();
    write_of(
        before,
        db,
        account,
        digits.format(number).as_bytes(),
        after,
        target,
    )
}

/// Writes the command that gives a year's calendar.
fn write_year<W: Target>(db: &str, year: u32, target: &mut W) -> Result<(), WriteFault>
    ensures { Writes result (W.taken target.old) (W.taken target.new)
        (W.failed target.new) (command_on (codes "hint: ftd calendar --db ") db.now (decimal year)
        (codes " DAY ..\n")) }
{
    let mut digits = Buffer::new();
    let text = digits.format(year).as_bytes();
    write_on(b"hint: ftd calendar --db ", db, text, b" DAY ..\n", target)
}

/// Writes the command that reports a quarter.
fn write_quarter<W: Target>(
    db: &str,
    account: &str,
    quarter: Quarter,
    target: &mut W,
) -> Result<(), WriteFault>
    ensures { Writes result (W.taken target.old) (W.taken target.new)
        (W.failed target.new) (quarter_hint db.now account.now quarter) }
{
    let text = quarter_bytes(quarter);
    write_of(
        b"hint: ftd report --db ",
        db,
        account,
        &text,
        b" AMOUNT\n",
        target,
    )
}

/// Writes the command for each quarter that is to be reported.
fn write_missing<W: Target>(
    db: &str,
    account: &str,
    quarters: &[Quarter],
    target: &mut W,
) -> Result<(), WriteFault>
    ensures { Writes result (W.taken target.old) (W.taken target.new)
        (W.failed target.new) (flat_map (quarter_hint db.now account.now) quarters.now) }
{
    for quarter in quarters {
        write_quarter(db, account, *quarter, target)?;
    }
    Ok(())
}

/// The first of the days that is not among those.
fn first_beside(days: &[Day], those: &[Day]) -> Option<Day>
    ensures { result ≡ first_beside days.now those.now }
{
    days.iter().copied().find(|day| !those.contains(day))
}

/// Writes the command that adds a holiday, if there is one to add.
fn write_new<W: Target>(db: &str, day: Option<Day>, target: &mut W) -> Result<(), WriteFault>
    ensures { Writes result (W.taken target.old) (W.taken target.new)
        (W.failed target.new) (new_text db.now day) }
{
    let Some(day) = day else {
        return Ok(());
    };
    let text = day_bytes(day);
    write_on(
        b"hint: one more holiday is ftd add-holiday --db ",
        db,
        &text,
        b"\n",
        target,
    )
}

/// Writes that the day was given before, and the command that takes it back, if there is one.
fn write_left_out<W: Target>(db: &str, day: Option<Day>, target: &mut W) -> Result<(), WriteFault>
    ensures { Writes result (W.taken target.old) (W.taken target.new)
        (W.failed target.new) (left_out_text db.now day) }
{
    let Some(day) = day else {
        return Ok(());
    };
    let text = day_bytes(day);
    write_pieces(
        target,
        &[
            b"hint: ",
            &text,
            b" was given too\nhint: if it is no holiday, ftd change-holiday --db ",
            file_bytes(db),
            b" ",
            &text,
            b" no\n",
        ],
    )
}

/// Writes what differs between the days of a calendar and those that were given before.
fn write_differing<W: Target>(
    db: &str,
    days: &[Day],
    given: &[Day],
    target: &mut W,
) -> Result<(), WriteFault>
    ensures { Writes result (W.taken target.old) (W.taken target.new)
        (W.failed target.new) (differing_text db.now days.now given.now) }
{
    write_new(db, first_beside(days, given), target)?;
    write_left_out(db, first_beside(given, days), target)
}

/// Writes which of the account's years is the first.
fn write_first<W: Target>(first: u32, target: &mut W) -> Result<(), WriteFault>
    ensures { Writes result (W.taken target.old) (W.taken target.new)
        (W.failed target.new) (first_text first) }
{
    let mut digits = Buffer::new();
    let text = digits.format(first).as_bytes();
    write_pieces(
        target,
        &[
            b"hint: the account's first year is ",
            text,
            b": none before it can be opened\n",
        ],
    )
}

/// What stands behind the account in the command that enrols it, for a request.
fn enrolled_as(request: &Request) -> &'static [u8]
    ensures { result.now ≡ enrolled_as request.now }
{
    match request {
        Request::Enter(
            Entry::Total {
                period: ReturnPeriod::Year(_),
                ..
            },
        )
        | Request::Correct {
            correction: Correction::Total {
                period: ReturnPeriod::Year(_),
                ..
            },
            ..
        } => b" START --form 943\n",
        _ => b" START\n",
    }
}

/// Which command mends a refusal, with the year or the quarter that it is for.
#[derive(Clone, Copy)]
enum Hint {
    /// None does, and something is said of the refusal.
    Said,
    Enrol,
    Void,
    VoidPay,
    Calendar(u32),
    Report(Quarter),
    ReportYear(u32),
    OpenYear(u32),
    /// What is known otherwise is corrected.
    Correct,
    /// The next number is taken, where there are so many.
    Next(u32),
}

/// Which command mends the refusal.
#[tactic(auto, unfolding(crate::specs::Hints::hint_of))]
fn hint_of(refusal: &Refusal) -> Hint
    ensures { result ≡ hint_of refusal.now }
{
    match refusal {
        Refusal::UnknownAccount => Hint::Enrol,
        Refusal::RunDiffers => Hint::Void,
        Refusal::PaymentDiffers => Hint::VoidPay,
        Refusal::CalendarMissing(year) => Hint::Calendar(*year),
        Refusal::QuarterMissing(quarter) => Hint::Report(*quarter),
        Refusal::YearNotOpen(year) => Hint::OpenYear(*year),
        Refusal::YearMissing(year) => Hint::ReportYear(*year),
        Refusal::NumberSkipped(count) => Hint::Next(*count),
        Refusal::AccountDiffers | Refusal::QuarterDiffers | Refusal::YearDiffers => Hint::Correct,
        _ => Hint::Said,
    }
}

/// What is said of an account that is enrolled otherwise, up to the file.
const ENROLLED_OTHERWISE: &[u8] =
    b"hint: the account has another first day or form, or is carried otherwise\n\
    hint: for another form, or if a total is reported or a year is open, \
    enrol a new account by another name\n\
    hint: else, to correct its first day or carried, ftd correct-account --db ";

/// What is said of a quarter that is reported otherwise, up to the file.
const QUARTER_OTHERWISE: &[u8] = b"hint: the quarter is reported with another amount\n\
    hint: if that is wrong, ftd correct-report --db ";

/// What is said of a year that is reported otherwise, up to the file.
const YEAR_OTHERWISE: &[u8] = b"hint: the year is reported with another amount\n\
    hint: if that is wrong, ftd correct-report-year --db ";

/// Writes the command that corrects a total which is reported otherwise.
fn write_otherwise<W: Target>(
    db: &str,
    account: &str,
    period: ReturnPeriod,
    target: &mut W,
) -> Result<(), WriteFault>
    ensures { Writes result (W.taken target.old) (W.taken target.new)
        (W.failed target.new) (total_otherwise db.now account.now period) }
{
    match period {
        ReturnPeriod::Quarter(quarter) => {
            let text = quarter_bytes(quarter);
            write_of(QUARTER_OTHERWISE, db, account, &text, b" AMOUNT\n", target)
        }
        ReturnPeriod::Year(year) => {
            write_number(YEAR_OTHERWISE, db, account, year, b" AMOUNT\n", target)
        }
    }
}

/// Writes the command that corrects what was entered otherwise.
fn write_entry_otherwise<W: Target>(
    db: &str,
    entry: &Entry,
    target: &mut W,
) -> Result<(), WriteFault>
    ensures { Writes result (W.taken target.old) (W.taken target.new)
        (W.failed target.new) (entry_otherwise db.now entry.now) }
{
    match entry {
        Entry::Account { name, .. } => {
            let name = name.as_str().as_bytes();
            write_on(ENROLLED_OTHERWISE, db, name, b" START\n", target)
        }
        Entry::Total {
            account,
            period,
            ..
        } => { write_otherwise(db, account.as_str(), *period, target) }
        Entry::Calendar { .. } | Entry::Holiday { .. } | Entry::Year { .. } => {
            write_all(target, b"")
        }
    }
}

/// Writes the command that corrects what is known otherwise.
fn write_correct<W: Target>(db: &str, request: &Request, target: &mut W) -> Result<(), WriteFault>
    ensures { Writes result (W.taken target.old) (W.taken target.new)
        (W.failed target.new) (correct_text db.now request.now) }
{
    if let Request::Enter(entry) = request {
        write_entry_otherwise(db, entry, target)
    } else {
        write_all(target, b"")
    }
}

/// Writes the next number, where there are so many.
fn write_next<W: Target>(count: u32, target: &mut W) -> Result<(), WriteFault>
    ensures { Writes result (W.taken target.old) (W.taken target.new)
        (W.failed target.new) (next_text count) }
{
    let mut digits = Buffer::new();
    let text = digits.format(u64::from(count) + 1).as_bytes();
    write_pieces(
        target,
        &[
            b"hint: the next number is ",
            text,
            b"; leave out --number to use it\n",
        ],
    )
}

/// Writes the hint of a refusal.
fn write_hint<W: Target>(
    db: &str,
    request: &Request,
    refusal: Refusal,
    target: &mut W,
) -> Result<(), WriteFault>
    ensures { Writes result (W.taken target.old) (W.taken target.new)
        (W.failed target.new) (hint_text db.now request.now refusal) }
{
    let account = account_in(request);
    match hint_of(&refusal) {
        Hint::Said => write_all(target, said(request, refusal)),
        Hint::Enrol => {
            let before = b"hint: if name and file are right, ftd enrol --db ";
            write_on(before, db, account.as_bytes(), enrolled_as(request), target)
        }
        Hint::Void => {
            let before =
                b"hint: take a new number; if the run that has it is wrong, ftd void --db ";
            write_number(before, db, account, number_in(request), b"\n", target)
        }
        Hint::VoidPay => {
            let before = b"hint: take a new number; if that payment is wrong, ftd void-pay --db ";
            write_number(before, db, account, number_in(request), b"\n", target)
        }
        Hint::Calendar(year) => write_year(db, year, target),
        Hint::Report(quarter) => write_quarter(db, account, quarter, target),
        Hint::ReportYear(year) => {
            let before = b"hint: ftd report-year --db ";
            write_number(before, db, account, year, b" AMOUNT\n", target)
        }
        Hint::OpenYear(year) => {
            let before = b"hint: ftd open-year --db ";
            write_number(before, db, account, year, b"\n", target)
        }
        Hint::Correct => write_correct(db, request, target),
        Hint::Next(count) => write_next(count, target),
    }
}

/// What is said of a refusal that no command mends. Nothing of the others.
#[tactic(auto, unfolding(crate::specs::Hints::said_text))]
fn said(request: &Request, refusal: Refusal) -> &'static [u8]
    ensures { result.now ≡ said_text request.now refusal }
{
    match refusal {
        Refusal::BadName => {
            b"hint: names have 1 to 20 lower-case letters, digits and hyphens, a letter first\n"
        }
        Refusal::BadYear => years_said(request),
        Refusal::BadDay => days_said(request),
        Refusal::BadCents => {
            b"hint: an amount is at most 999999999.99, and a payment at least 0.01\n"
        }
        Refusal::BadCalendar => calendar_said(request),
        Refusal::BadNumber => b"hint: numbers are 1 to 999999999\n",
        Refusal::CalendarDiffers => b"hint: ftd add-holiday adds a holiday\n",
        Refusal::UnknownRun => b"hint: the account has no run of this number\n",
        Refusal::UnknownPayment => b"hint: the account has no payment of this number\n",
        Refusal::BeforeStart => b"hint: that is before the employer's first day\n",
        Refusal::TooManyRuns => b"hint: an account has at most 20000 runs, void ones too\n",
        Refusal::TooManyPayments => {
            b"hint: an account has at most 20000 payments, void ones too\n"
        }
        Refusal::WrongForm => form_said(request),
        Refusal::CorrectionDiffers => b"hint: take the next number, or leave it out\n",
        Refusal::NoHoliday => b"hint: the day was never a holiday; ftd add-holiday adds one\n",
        Refusal::AccountInUse => {
            b"hint: a total is reported, or a year is open; enrol a new account by another name\n"
        }
        _ => b"",
    }
}
