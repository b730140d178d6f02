//! The subcommands and their words, as a table.

ghost use Rattle.std.specs.Prelude.{◌≡◌};
ghost use Rattle.ftd_verbs.specs.Rows.{row_of};
ghost use Rattle.ftd_cli.specs.Table.{field_text, fields_in, is_kind_option, is_option, kind_takes};
ghost use Rattle.ftd_cli.specs.Table.{is_day_or_today, may_be_today};
ghost use Rattle.ftd_cli.specs.Table.{name_text, sheet_text, takes_file, takes_many, takes_of};
ghost use Rattle.ftd_cli.specs.Table.{word_text, words_of, words_with};

use Word::{
    Check, Connections, CopyFile, CsvFile, Db, DueDay, Duration, Echo, Holidays, Idle,
    JournalAccount, PaidDay, Port, Script, Silence, Stop, Unchecked, Wait,
};
use ftd_csv::Sheet;
use ftd_verbs::{Field, Formats, Kind, Verb};

/// What a word takes.
#[derive(Clone, Copy, Debug)]
pub enum Takes {
    /// One text, which must be there.
    Text,
    /// One text, which may be left out.
    Optional,
    /// One whole number between these, which must be there.
    Number(i64, i64),
    /// One whole number between these, which may be left out.
    OptionalNumber(i64, i64),
    /// Any number of texts.
    Texts,
    /// Nothing: it is there or not.
    Nothing,
    /// A text, 941 if it is not there.
    Form,
    /// A text, `text` if it is not there.
    Format,
    /// A text, `-` if it is not there.
    Script,
    /// A whole number of seconds from 1 to 3,600, 1 if it is not there.
    Idle,
    /// A whole number of seconds from 1 to 3,600, 10 if it is not there.
    Silence,
    /// A whole number of seconds from 1 to 3,600, 60 if it is not there.
    Duration,
    /// A whole number of seconds from 0 to 3,600, 0 if it is not there.
    Wait,
}

/// A subcommand.
#[derive(Clone, Copy, Debug, PartialEq, Eq)]
pub enum Name {
    /// The deposits of pay runs from standard input.
    Plain,
    /// HTTP requests are answered.
    Serve,
    /// The commands of a script are answered.
    Shell,
    /// The commands that make the same desk are printed.
    Journal,
    /// Whether the file is as commands made it is printed.
    Check,
    /// A copy of the file is made.
    Backup,
    /// A sheet of CSV is imported.
    Import(Sheet),
    /// A year is opened of each account that has the year before open.
    OpenYears,
    /// What is left of the deposits that are due on a day is recorded as paid.
    Settle,
    /// A request to the desk.
    Verb(Verb),
}

/// A word of a subcommand.
#[derive(Clone, Copy, Debug, PartialEq, Eq)]
pub enum Word {
    /// The file of the database.
    Db,
    /// How many seconds it waits for the file.
    Wait,
    /// The port to listen at.
    Port,
    /// How many connections are taken.
    Connections,
    /// How many seconds a client may be idle.
    Idle,
    /// How many seconds a read or a write waits.
    Silence,
    /// For how many seconds a connection is served.
    Duration,
    /// A server does not check its file as it starts.
    Unchecked,
    /// The file that a copy is made in.
    CopyFile,
    /// A file of CSV.
    CsvFile,
    /// The import is a trial.
    Check,
    /// The lines of a script, each a command.
    Script,
    /// Each line is printed before its answer.
    Echo,
    /// The first line that is not answered is the last.
    Stop,
    /// The account whose journal is asked for.
    JournalAccount,
    /// The day on which what is settled is due.
    DueDay,
    /// The day on which what is settled was paid; today where it is left out.
    PaidDay,
    /// The holidays for `plain`.
    Holidays,
    /// The format of the answer, one of these.
    Format(Formats),
    /// A field of a verb.
    Field(Field),
}

/// The import of a sheet as it is written.
fn sheet_text<'a>(sheet: Sheet) -> &'a str
    ensures { result.now ≡ sheet_text sheet }
{
    match sheet {
        Sheet::Runs => "import",
        Sheet::Accounts => "import-accounts",
        Sheet::Totals => "import-reported",
        Sheet::Payments => "import-payments",
    }
}

/// The command of a verb as it is written.
fn verb_text<'a>(verb: Verb) -> &'a str
    ensures { result.now ≡ (row_of verb).command }
{
    let text = verb.row().command;
    &*text
}

/// The words of a verb but for its fields, by the formats that it has.
fn words_with(formats: Formats) -> &'static [Word]
    ensures { result.now ≡ words_with formats }
{
    match formats {
        Formats::Fixed => &[Db, Wait],
        Formats::Explanation => &[Db, Wait, Word::Format(Formats::Explanation)],
        Formats::List => &[Db, Wait, Word::Format(Formats::List)],
        Formats::Calendar => &[Db, Wait, Word::Format(Formats::Calendar)],
    }
}

impl Name {
    /// The subcommand as it is written.
    pub fn text<'a>(self) -> &'a str
        ensures { result.now ≡ name_text self }
    {
        match self {
            Name::Plain => "plain",
            Name::Serve => "serve",
            Name::Shell => "shell",
            Name::Journal => "journal",
            Name::Check => "check",
            Name::Backup => "backup",
            Name::Import(sheet) => sheet_text(sheet),
            Name::OpenYears => "open-years",
            Name::Settle => "settle",
            Name::Verb(verb) => verb_text(verb),
        }
    }

    /// Whether it takes the file of a desk: all but `plain` do.
    pub fn takes_file(self) -> bool
        ensures { result ≡ takes_file self }
    {
        !matches!(self, Name::Plain)
    }

    /// Its words, in their order, but for the fields of its verb.
    pub fn words(self) -> &'static [Word]
        ensures { result.now ≡ words_of self }
    {
        match self {
            Name::Plain => &[
                Word::Field(Field::Account),
                Word::Field(Field::Year),
                Holidays,
            ],
            Name::Serve => &[
                Db,
                Wait,
                Port,
                Connections,
                Idle,
                Silence,
                Duration,
                Unchecked,
            ],
            Name::Shell => &[Db, Wait, Echo, Stop, Script],
            Name::Journal => &[Db, Wait, JournalAccount],
            Name::Check => &[Db, Wait],
            Name::Backup => &[Db, Wait, CopyFile],
            Name::Import(_) => &[Db, Wait, Check, CsvFile],
            Name::OpenYears => &[Db, Wait, Word::Field(Field::Year)],
            Name::Settle => &[Db, Wait, Word::Field(Field::Account), DueDay, PaidDay],
            Name::Verb(verb) => words_with(verb.row().formats),
        }
    }

    /// The fields of its verb, which come behind its words.
    pub fn fields(self) -> &'static [Field]
        ensures { result.now ≡ fields_in self }
    {
        match self {
            Name::Verb(verb) => verb.row().fields,
            _ => &[],
        }
    }
}

/// The word that gives a field.
fn field_text<'a>(field: Field) -> &'a str
    ensures { result.now ≡ field_text field }
{
    match field {
        Field::Account => "ACCOUNT",
        Field::Start => "START",
        Field::Carried => "carried",
        Field::Form => "form",
        Field::Year => "YEAR",
        Field::Quarter => "QUARTER",
        Field::Amount => "AMOUNT",
        Field::Run | Field::RunToVoid => "RUN",
        Field::Payday => "PAYDAY",
        Field::Fit => "FIT",
        Field::Ss => "SS",
        Field::Medicare => "MEDICARE",
        Field::Payment | Field::PaymentToVoid => "PAYMENT",
        Field::Paid => "PAID",
        Field::For => "FOR",
        Field::AsOf | Field::AsOfToday => "ASOF",
        Field::From => "FROM",
        Field::To => "TO",
        Field::Number => "number",
        Field::IsHoliday => "HOLIDAY",
        Field::Day | Field::Days => "DAY",
        Field::Until | Field::LastDay => "UNTIL",
    }
}

/// Whether the word of a field of this kind stands behind two hyphens.
fn is_kind_option(kind: Kind) -> bool
    ensures { result ≡ is_kind_option kind }
{
    matches!(kind, Kind::Mark | Kind::Form | Kind::NumberOrNext)
}

/// What the word of a field of this kind takes.
fn kind_takes(kind: Kind) -> Takes
    ensures { result ≡ kind_takes kind }
{
    match kind {
        Kind::Account | Kind::NewNumber | Kind::Day | Kind::Quarter | Kind::Amount | Kind::Answer =>
            Takes::Text,
        Kind::Number | Kind::Year => Takes::Number(0, LARGEST_NUMBER),
        Kind::NumberOrNext => Takes::OptionalNumber(0, LARGEST_NUMBER),
        Kind::DayOrOther | Kind::DayOrToday => Takes::Optional,
        Kind::Days => Takes::Texts,
        Kind::Mark => Takes::Nothing,
        Kind::Form => Takes::Form,
    }
}

/// Whether a field of this kind is today where it is left out.
fn is_day_or_today(kind: Kind) -> bool
    ensures { result ≡ is_day_or_today kind }
{
    matches!(kind, Kind::DayOrToday)
}

impl Word {
    /// The name of the word.
    pub fn text<'a>(self) -> &'a str
        ensures { result.now ≡ word_text self }
    {
        match self {
            Word::Db => "db",
            Word::Wait => "wait",
            Word::Port => "port",
            Word::Connections => "connections",
            Word::Idle => "idle",
            Word::Silence => "silence",
            Word::Duration => "duration",
            Word::Unchecked => "unchecked",
            Word::CopyFile => "COPY",
            Word::CsvFile => "CSVFILE",
            Word::Check => "check",
            Word::Script => "SCRIPT",
            Word::Echo => "echo",
            Word::Stop => "stop",
            Word::JournalAccount => "ACCOUNT",
            Word::DueDay => "DUE",
            Word::PaidDay => "PAID",
            Word::Holidays => "HOLIDAY",
            Word::Format(_) => "format",
            Word::Field(field) => field_text(field),
        }
    }

    /// Whether it stands behind two hyphens, and not by its place.
    pub fn is_option(self) -> bool
        ensures { result ≡ is_option self }
    {
        match self {
            Word::CsvFile
            | Word::CopyFile
            | Word::Script
            | Word::Holidays
            | Word::JournalAccount
            | Word::DueDay
            | Word::PaidDay => false,
            Word::Field(field) => is_kind_option(field.kind()),
            _ => true,
        }
    }

    /// What it takes.
    pub fn takes(self) -> Takes
        ensures { result ≡ takes_of self }
    {
        match self {
            Word::Db | Word::CsvFile | Word::CopyFile | Word::DueDay => Takes::Text,
            Word::Wait => Takes::Wait,
            Word::Port => Takes::Number(0, LAST_PORT),
            Word::Connections => Takes::Number(1, MOST_CONNECTIONS),
            Word::Idle => Takes::Idle,
            Word::Silence => Takes::Silence,
            Word::Duration => Takes::Duration,
            Word::Check | Word::Echo | Word::Stop | Word::Unchecked => Takes::Nothing,
            Word::Script => Takes::Script,
            Word::JournalAccount | Word::PaidDay => Takes::Optional,
            Word::Holidays => Takes::Texts,
            Word::Format(_) => Takes::Format,
            Word::Field(field) => kind_takes(field.kind()),
        }
    }

    /// Whether it is a day that is today where it is left out.
    pub fn may_be_today(self) -> bool
        ensures { result ≡ may_be_today self }
    {
        match self {
            Word::PaidDay => true,
            Word::Field(field) => is_day_or_today(field.kind()),
            _ => false,
        }
    }

    /// Whether it takes any number of values.
    pub fn takes_many(self) -> bool
        ensures { result ≡ takes_many (takes_of self) }
    {
        matches!(self.takes(), Takes::Texts)
    }
}

/// The largest whole number that a word may have.
const LARGEST_NUMBER: i64 = 4_294_967_295;

/// The last port.
const LAST_PORT: i64 = 65_535;

/// How many connections a server may be asked to take.
const MOST_CONNECTIONS: i64 = 1_000_000;

/// The subcommands, as help lists them: in the order in which an employer needs them.
pub const NAMES: [Name; 39] = [
    Name::Verb(Verb::Calendar),
    Name::Verb(Verb::Enrol),
    Name::Verb(Verb::Report),
    Name::Verb(Verb::ReportYear),
    Name::Verb(Verb::OpenYear),
    Name::OpenYears,
    Name::Verb(Verb::Post),
    Name::Import(Sheet::Accounts),
    Name::Import(Sheet::Totals),
    Name::Import(Sheet::Runs),
    Name::Import(Sheet::Payments),
    Name::Verb(Verb::DueList),
    Name::Verb(Verb::Agenda),
    Name::Verb(Verb::Owed),
    Name::Verb(Verb::Pay),
    Name::Settle,
    Name::Verb(Verb::Unapplied),
    Name::Verb(Verb::Status),
    Name::Verb(Verb::Explain),
    Name::Verb(Verb::ScheduleB),
    Name::Verb(Verb::Accounts),
    Name::Verb(Verb::Years),
    Name::Verb(Verb::Reported),
    Name::Verb(Verb::Holidays),
    Name::Verb(Verb::Runs),
    Name::Verb(Verb::Payments),
    Name::Verb(Verb::Void),
    Name::Verb(Verb::VoidPay),
    Name::Verb(Verb::AddHoliday),
    Name::Verb(Verb::CorrectReport),
    Name::Verb(Verb::CorrectReportYear),
    Name::Verb(Verb::CorrectAccount),
    Name::Verb(Verb::ChangeHoliday),
    Name::Journal,
    Name::Check,
    Name::Backup,
    Name::Shell,
    Name::Plain,
    Name::Serve,
];
