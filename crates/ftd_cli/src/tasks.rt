//! What words may ask, and why they may ask nothing.

ghost use Rattle.ftd_days.specs.declared.limits.TheConstants.{FIRST_YEAR, LAST_OPEN_YEAR};
ghost use Rattle.std.specs.Prelude.{◌≤◌};

use crate::Word;
use ftd_csv::Sheet;
use ftd_days::Day;
use ftd_machine::{AccountName, Days, Request};
use ftd_verbs::AnswerFormat;

/// The deposits of an account in a year, from pay runs on standard input.
#[derive(Drop)]
pub struct PlainTask {
    /// The account's name.
    pub account: AccountName,
    /// The year, one of 2001 to 2098.
    pub year: u32,
    /// The holidays of the year and the next.
    pub holidays: Days,
    pub ghost from: { FIRST_YEAR ≤ year },
    pub ghost to: { year ≤ LAST_OPEN_YEAR },
}

/// What is left of each deposit of an account that is due on a day is to be recorded as a payment
/// under the next number.
#[derive(Drop)]
pub struct Settlement {
    /// The account's name.
    pub account: AccountName,
    /// The due date.
    pub due: Day,
    /// The day on which it was paid.
    pub paid: Day,
}

/// What is to be done with the desk in a database.
#[derive(Drop)]
pub enum Job {
    /// The records of this CSV file are entered; `-` is standard input. A trial tells what would be
    /// answered, and changes nothing.
    Import {
        sheet: Sheet,
        file: String,
        is_trial: bool,
    },
    /// A request. A reply that has several formats, as a list has, is told in this one.
    Ask {
        format: AnswerFormat,
        request: Request,
    },
    /// A pay run, a payment or a correction under the next number. The request is under the
    /// greatest one. To a correction under that the desk answers how many there are, unless it
    /// refuses it otherwise: it is to be asked again under one more than these. A pay run or a
    /// payment is to be asked under the least number above all that its account has used.
    AskNext {
        request: Request,
    },
    /// The year is opened of each account that has the year before open, one after the other, by
    /// name.
    OpenYears {
        year: u32,
    },
    /// What is left of deposits is recorded as paid.
    Settle(Settlement),
    /// The journal of the desk, or of this account: the commands that make the same one.
    Journal {
        account: Option<AccountName>,
    },
    /// Whether the tables are as requests made them.
    Check,
}

/// A job, and the file of the desk's database.
#[derive(Drop)]
pub struct LocalTask {
    /// The database file.
    pub db: String,
    /// How many seconds it waits while another program has the file open.
    pub wait: u32,
    pub job: Job,
}

/// HTTP requests are to be answered by the desk in a database.
#[derive(Drop)]
pub struct ServeTask {
    /// The database file.
    pub db: String,
    /// How many seconds it waits while another program has the file open.
    pub wait: u32,
    /// The port of 127.0.0.1 to listen at; 0 is a free one.
    pub port: u16,
    /// How many connections are taken.
    pub connections: u32,
    /// How many seconds a client may be idle between two requests.
    pub idle: u32,
    /// How many seconds a read or a write waits for the client.
    pub silence: u32,
    /// For how many seconds one connection is served at most.
    pub duration: u32,
    /// Whether it starts without a check of the file.
    pub is_unchecked: bool,
}

/// A copy of a database file is to be made, with what its log has.
#[derive(Drop)]
pub struct BackupTask {
    /// The database file.
    pub db: String,
    /// How many seconds it waits while another program has the file open.
    pub wait: u32,
    /// The file of the copy, which is to be made.
    pub copy: String,
}

/// The lines of a script are to be answered by the desk in a database, each as a command.
#[derive(Drop)]
pub struct ShellTask {
    /// The database file.
    pub db: String,
    /// How many seconds it waits while another program has the file open.
    pub wait: u32,
    /// The file of the script; `-` is standard input.
    pub script: String,
    /// Whether each line is printed before its answer.
    pub has_echo: bool,
    /// Whether the first line whose status is not 0 is the last.
    pub has_stop: bool,
}

/// What words ask.
#[derive(Drop)]
pub enum Task {
    Plain(PlainTask),
    Serve(ServeTask),
    Shell(ShellTask),
    Backup(BackupTask),
    Local(LocalTask),
}

/// Why words ask nothing.
#[derive(Drop)]
pub enum CliFault {
    /// The first word whose value is none of its kind, and that value, its control bytes escaped.
    BadArgument { word: Word, value: String },
    /// The first word without a value, where that is today, which is not known.
    NoToday(Word),
    /// They are no command line: this text tells why.
    Usage(String),
    /// They ask for help, or for the version: this text.
    Help(String),
    /// Out of memory.
    Memory,
}
