//! What help says of the subcommands and their words.

use crate::{Name, Word};
use ftd_csv::Sheet;
use ftd_verbs::{Field, Formats, Verb};

// How a desk is begun.
const ENROL: &str = "Example: ftd enrol --db office.db elm 2024-05-01\n\
    The database file is made if it is not there.";

const CALENDAR: &str = "Example: ftd calendar --db office.db 2024 2024-01-01 2024-01-15\n\
    The database file is made if it is not there.";

const SERVE: &str = "Example: ftd serve --db office.db --port 8080 --connections 1000\n\
    The database file is made if it is not there.";

// How an import is used, with the header that its file has to have.
const IMPORT_RUNS: &str = "Example: ftd import --db office.db runs.csv\n\
    The file's header: employer,run,payday,fit,ss,medicare";

const IMPORT_ACCOUNTS: &str = "Example: ftd import-accounts --db office.db accounts.csv\n\
    The file's header: employer,first_day,carried,form\n\
    The database file is made if it is not there.";

const IMPORT_REPORTED: &str = "Example: ftd import-reported --db office.db totals.csv\n\
    The file's header: employer,period,amount";

const IMPORT_PAYMENTS: &str = "Example: ftd import-payments --db office.db payments.csv\n\
    The file's header: employer,payment,paid,for,amount";

// How what was typed in wrongly is put right, with what stays.
const CORRECT_REPORT: &str = "Example: ftd correct-report --db office.db elm 2022Q3 12500.00\n\
    The last correction is in force. What was first reported stays.";

const CORRECT_REPORT_YEAR: &str =
    "Example: ftd correct-report-year --db office.db rye 2022 50000.00\n\
    The last correction is in force. What was first reported stays.";

const CHANGE_HOLIDAY: &str = "Example: ftd change-holiday --db office.db 2024-06-17 no\n\
    The last change is in force. The calendar stays as it was given.";

const CORRECT_ACCOUNT: &str = "Example: ftd correct-account --db office.db elm 2024-05-01\n\
    Without --carried the account is not carried. What was first enrolled stays.";

const POST: &str = "Example: ftd post --db office.db elm 1 2024-05-08 20000.00 16000.00 4000.00\n\
    With next in the place of RUN it takes the next number and prints it.";

const PAY: &str = "Example: ftd pay --db office.db elm 1 2024-06-17 2024-05-08 40000.00\n\
    With next in the place of PAYMENT it takes the next number and prints it.";

const SETTLE: &str = "Example: ftd settle --db office.db elm 2024-06-17\n\
    Each payment is printed as its pay command, with its number and amount.";

const SHELL: &str = "Example: ftd shell --db office.db commands.txt\n\
    A line is a command without ftd and --db: post elm 1 2024-05-08 20000.00 16000.00 4000.00";

const JOURNAL: &str = "Example: ftd journal --db office.db > journal.txt\n\
    ftd shell --db new.db journal.txt makes the same desk of it.";

const BACKUP: &str = "Example: ftd backup --db office.db office-2024-06-30.db\n\
    The copy has all that was entered. A file that is there is never written over.";

impl Name {
    /// What help says of it, in a line.
    pub fn about<'a>(self) -> &'a str {
        match self {
            Name::Plain => "Print the deposits of pay runs from CSV; keeps nothing",
            Name::Serve => "Answer HTTP requests on 127.0.0.1",
            Name::Shell => "Answer commands, a line each; the file is opened once",
            Name::Journal => "Print the commands that make the same desk, or account",
            Name::Check => "Check that the file is as commands made it",
            Name::Backup => "Copy the file into a new one, and check the copy",
            Name::Import(sheet) => sheet_about(sheet),
            Name::OpenYears => "Open a year of each account whose year before is open",
            Name::Settle => "Record what is left of the deposits due on a day as paid",
            Name::Verb(verb) => verb_about(verb),
        }
    }

    /// How it is used, for the end of its help.
    pub fn example<'a>(self) -> &'a str {
        match self {
            Name::Plain => "Example: ftd plain elm 2024 2024-05-27 2024-07-04 < runs.csv",
            Name::Serve => SERVE,
            Name::Shell => SHELL,
            Name::Journal => JOURNAL,
            Name::Check => "Example: ftd check --db office.db",
            Name::Backup => BACKUP,
            Name::Import(sheet) => sheet_example(sheet),
            Name::OpenYears => "Example: ftd open-years --db office.db 2025",
            Name::Settle => SETTLE,
            Name::Verb(verb) => verb_example(verb),
        }
    }
}

/// What help says of a verb, in a line.
fn verb_about<'a>(verb: Verb) -> &'a str {
    match verb {
        Verb::Enrol => "Enrol an employer's account",
        Verb::Calendar => "Enter a year's legal holidays",
        Verb::Report => "Report the tax of a lookback quarter, as on its Form 941",
        Verb::ReportYear => "Report the tax of a lookback year, as on its Form 943",
        Verb::OpenYear => "Open a year of an account for pay runs",
        Verb::Post => "Post a pay run",
        Verb::Void => "Void a pay run",
        Verb::Pay => "Record a deposit that was paid",
        Verb::VoidPay => "Void a recorded deposit",
        Verb::CorrectReport => "Correct the reported tax of a quarter",
        Verb::CorrectReportYear => "Correct the reported tax of a year",
        Verb::ChangeHoliday => "Correct whether a day is a legal holiday",
        Verb::CorrectAccount => "Correct the first day of an account not in use yet",
        Verb::Status => "Print whether an account deposits monthly or semiweekly",
        Verb::Explain => "Explain a day's deposit: its amount, period and due date",
        Verb::DueList => "List the deposits of a quarter: how much, when, if paid",
        Verb::Agenda => "List what is due between two days, over all accounts",
        Verb::Owed => "List what is due and not paid, over all accounts",
        Verb::Unapplied => "List money that counts for nothing, over all accounts",
        Verb::ScheduleB => "List the liability of a quarter by day, as for Schedule B",
        Verb::AddHoliday => "Add a legal holiday to a year that was given",
        Verb::Accounts => "List the accounts",
        Verb::Years => "List the open years of an account, and how each opened",
        Verb::Reported => "List the totals that were reported for an account",
        Verb::Holidays => "List the legal holidays of a year, and days taken back",
        Verb::Runs => "List the pay runs of a quarter, void ones too",
        Verb::Payments => "List the deposits paid for a quarter, with their periods",
    }
}

/// What help says of an import of a sheet, in a line.
fn sheet_about<'a>(sheet: Sheet) -> &'a str {
    match sheet {
        Sheet::Runs => "Post the pay runs of a CSV file",
        Sheet::Accounts => "Enrol the accounts of a CSV file",
        Sheet::Totals => "Report the lookback totals of a CSV file",
        Sheet::Payments => "Record the payments listed in a CSV file",
    }
}

/// How a verb is asked.
fn verb_example<'a>(verb: Verb) -> &'a str {
    match verb {
        Verb::Enrol => ENROL,
        Verb::Calendar => CALENDAR,
        Verb::Report => "Example: ftd report --db office.db elm 2022Q3 12500.00",
        Verb::ReportYear => "Example: ftd report-year --db office.db rye 2022 50000.00",
        Verb::OpenYear => "Example: ftd open-year --db office.db elm 2024",
        Verb::Post => POST,
        Verb::Void => "Example: ftd void --db office.db elm 1",
        Verb::Pay => PAY,
        Verb::VoidPay => "Example: ftd void-pay --db office.db elm 1",
        Verb::CorrectReport => CORRECT_REPORT,
        Verb::CorrectReportYear => CORRECT_REPORT_YEAR,
        Verb::ChangeHoliday => CHANGE_HOLIDAY,
        Verb::CorrectAccount => CORRECT_ACCOUNT,
        Verb::Status => "Example: ftd status --db office.db elm 2024-05-08",
        Verb::Explain => "Example: ftd explain --db office.db elm 2024-05-08",
        Verb::DueList => "Example: ftd due --db office.db elm 2024Q2 2024-06-30",
        Verb::Agenda => { "Example: ftd agenda --db office.db 2024-06-10 2024-06-17 2024-06-10" },
        Verb::Owed => "Example: ftd owed --db office.db 2024-06-10 2024-06-17",
        Verb::Unapplied => "Example: ftd unapplied --db office.db 2024-12-31",
        Verb::ScheduleB => "Example: ftd schedule-b --db office.db elm 2024Q2",
        Verb::AddHoliday => "Example: ftd add-holiday --db office.db 2024-06-17",
        Verb::Accounts => "Example: ftd accounts --db office.db",
        Verb::Years => "Example: ftd years --db office.db elm",
        Verb::Reported => "Example: ftd reported --db office.db elm",
        Verb::Holidays => "Example: ftd holidays --db office.db 2024",
        Verb::Runs => "Example: ftd runs --db office.db elm 2024Q2",
        Verb::Payments => "Example: ftd payments --db office.db elm 2024Q2",
    }
}

/// How a sheet is imported.
fn sheet_example<'a>(sheet: Sheet) -> &'a str {
    match sheet {
        Sheet::Runs => IMPORT_RUNS,
        Sheet::Accounts => IMPORT_ACCOUNTS,
        Sheet::Totals => IMPORT_REPORTED,
        Sheet::Payments => IMPORT_PAYMENTS,
    }
}

impl Word {
    /// What help calls its value.
    pub fn value<'a>(self) -> &'a str {
        match self {
            Word::Db => "FILE",
            Word::Field(Field::Form) => "FORM",
            Word::Format(_) => "FORMAT",
            Word::Port | Word::Connections | Word::Field(Field::Number) => "N",
            Word::Wait | Word::Idle | Word::Silence | Word::Duration => "SECONDS",
            word => word.text(),
        }
    }

    /// What help says of it.
    pub fn help<'a>(self) -> &'a str {
        match self {
            Word::Db => "The database file; the file that FTD_DB names if it is left out",
            Word::Wait => "How long to wait while another program has the file open, 0 to 3600",
            Word::Port => "The port to listen at, 1 to 65535, or 0 for a free one",
            Word::Connections => "How many connections to accept before exiting",
            Word::Idle => "How long a client may be idle between two requests, 1 to 3600",
            Word::Silence => "How long a read or a write waits for the client, 1 to 3600",
            Word::Duration => "How long one connection is served in all, 1 to 3600",
            Word::Unchecked => "Start without a check of the file",
            Word::CopyFile => "The file of the copy, which is made",
            Word::CsvFile => "The CSV file, under the header below; - is standard input",
            Word::Check => "Print what the import would print, and change nothing",
            Word::Script => "The file of the commands; - is standard input",
            Word::Echo => "Print each command before its answer",
            Word::Stop => "Stop at the first command that is not answered",
            Word::JournalAccount => "The account; all of the desk if it is left out",
            Word::DueDay => "The day on which the deposit is due, YYYY-MM-DD",
            Word::PaidDay => "The day on which it was paid, YYYY-MM-DD; today if it is left out",
            Word::Holidays => "Legal holidays of the year and the next, YYYY-MM-DD, ascending",
            Word::Format(formats) => formats_help(formats),
            Word::Field(field) => field_help(field),
        }
    }
}

/// What help says of a field.
fn field_help<'a>(field: Field) -> &'a str {
    match field {
        Field::Account =>
            "The account's name: a lower-case letter, then letters, digits or hyphens",
        Field::Start => "The employer's first day, YYYY-MM-DD",
        Field::Carried => "The account became semiweekly in the year before its first open year",
        Field::Form => "The form that the employer files, 941 or 943",
        Field::Year => "The year, YYYY",
        Field::Days => "Legal holidays in the District of Columbia, YYYY-MM-DD, ascending",
        Field::Quarter => "The quarter, as 2024Q1",
        Field::Amount => "The amount in dollars, as 1234.50",
        Field::Run => "The number of the pay run, 1 to 999999999, or next",
        Field::RunToVoid => "The number of the pay run, 1 to 999999999",
        Field::Payday => "The day on which the wages are paid, YYYY-MM-DD",
        Field::Fit => "The federal income tax withheld, as 1234.50",
        Field::Ss => "Both shares of social security tax, as 1234.50",
        Field::Medicare => "Both shares of Medicare tax, as 1234.50",
        Field::Payment => "The number of the deposit, 1 to 999999999, or next",
        Field::PaymentToVoid => "The number of the deposit, 1 to 999999999",
        Field::Paid => "The day on which it was paid, YYYY-MM-DD",
        Field::For => "A day of the period that it is paid for, YYYY-MM-DD",
        Field::Day => "The day, YYYY-MM-DD",
        Field::AsOf => "Deposits paid up to this day count, YYYY-MM-DD",
        Field::AsOfToday =>
            "Deposits paid up to this day count, YYYY-MM-DD; today if it is left out",
        Field::From => "The first due date, YYYY-MM-DD; today if it is left out",
        Field::To => "The last due date, YYYY-MM-DD; 30 days after FROM if it is left out",
        Field::Until => "The last due date, YYYY-MM-DD; a week after ASOF if it is left out",
        Field::LastDay => "The last day, YYYY-MM-DD; 2099-12-31 if it is left out",
        Field::Number => "The number of the correction; the next one if it is left out",
        Field::IsHoliday => "yes if the day is a legal holiday, no if it is not",
    }
}

/// What help says of the formats of an answer.
fn formats_help<'a>(formats: Formats) -> &'a str {
    match formats {
        Formats::Fixed => "The format of the answer: text",
        Formats::Explanation => "The format of the answer: text, json or html",
        Formats::List => "The format of the list: text, csv, json or html",
        Formats::Calendar => "The format of the list: text, csv, json, html or ics",
    }
}
