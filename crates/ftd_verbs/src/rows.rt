//! The verbs, each with its row: how it is asked, and what it takes.

ghost use Rattle.std.specs.Prelude.{◌≡◌};
ghost use Rattle.ftd_verbs.specs.Rows.{is_correction, row_of, row_seen};

use crate::Field::{
    Account, Amount, AsOf, AsOfToday, Carried, Day, Days, Fit, For, Form, From, IsHoliday, LastDay,
    Medicare, Number, Paid, Payday, Payment, PaymentToVoid, Quarter, Run, RunToVoid, Ss, Start, To,
    Until, Year,
};
use crate::{Field, Formats};
use Part::{Of, Text};

/// The method of a verb.
#[derive(Clone, Copy, Debug, PartialEq, Eq)]
pub enum Method {
    /// It asks a question.
    Get,
    /// It enters something.
    Post,
    /// It corrects something, under a number of its own.
    Put,
    /// It voids something.
    Delete,
}

/// A part of a path.
#[derive(Clone, Copy, Debug, PartialEq, Eq)]
pub enum Part {
    /// It is this text.
    Text(&'static str),
    /// It gives this field.
    Of(Field),
}

/// What is said of a verb.
#[derive(Clone, Copy, Debug)]
pub struct Row {
    /// The command that asks it.
    pub command: &'static str,
    /// The method of a message that asks it.
    pub method: Method,
    /// The path of that message, part by part.
    pub path: &'static [Part],
    /// Its fields, in the order in which they are read.
    pub fields: &'static [Field],
    /// The formats in which its answer may be asked for.
    pub formats: Formats,
}

/// What is asked for.
#[derive(Clone, Copy, Debug, PartialEq, Eq)]
pub enum Verb {
    /// A new account.
    Enrol,
    /// The legal holidays of a year.
    Calendar,
    /// A holiday that is added to a year whose calendar is given.
    AddHoliday,
    /// The total that was reported for a quarter.
    Report,
    /// The total that was reported for a year.
    ReportYear,
    /// A year of an account is opened.
    OpenYear,
    /// A pay run.
    Post,
    /// A pay run is voided.
    Void,
    /// A payment.
    Pay,
    /// A payment is voided.
    VoidPay,
    /// The total of a quarter is put right.
    CorrectReport,
    /// The total of a year is put right.
    CorrectReportYear,
    /// A day is taken back as a holiday, or made one again.
    ChangeHoliday,
    /// The first day of an account is put right, and whether it came in as semiweekly.
    CorrectAccount,
    /// The schedule on a day.
    Status,
    /// Why the obligation of a day is so.
    Explain,
    /// What is due for a quarter.
    DueList,
    /// The liability of a quarter by day.
    ScheduleB,
    /// What is due between two days, over all accounts.
    Agenda,
    /// What is due until a day and not paid, over all accounts.
    Owed,
    /// Money that counts for nothing, over all accounts.
    Unapplied,
    /// The accounts.
    Accounts,
    /// The open years of an account.
    Years,
    /// The totals that an account reported.
    Reported,
    /// The legal holidays of a year.
    Holidays,
    /// The pay runs of a quarter.
    Runs,
    /// The payments of a quarter.
    Payments,
}

/// The verbs.
pub const VERBS: [Verb; 27] = [
    Verb::Enrol,
    Verb::Calendar,
    Verb::AddHoliday,
    Verb::Report,
    Verb::ReportYear,
    Verb::OpenYear,
    Verb::Post,
    Verb::Void,
    Verb::Pay,
    Verb::VoidPay,
    Verb::CorrectReport,
    Verb::CorrectReportYear,
    Verb::ChangeHoliday,
    Verb::CorrectAccount,
    Verb::Status,
    Verb::Explain,
    Verb::DueList,
    Verb::ScheduleB,
    Verb::Agenda,
    Verb::Owed,
    Verb::Unapplied,
    Verb::Accounts,
    Verb::Years,
    Verb::Reported,
    Verb::Holidays,
    Verb::Runs,
    Verb::Payments,
];

const ENROL: Row = Row {
    command: "enrol",
    method: Method::Post,
    path: &[Text("accounts")],
    fields: &[Account, Start, Carried, Form],
    formats: Formats::Fixed,
};

const CALENDAR: Row = Row {
    command: "calendar",
    method: Method::Post,
    path: &[Text("calendars")],
    fields: &[Year, Days],
    formats: Formats::Fixed,
};

const ADD_HOLIDAY: Row = Row {
    command: "add-holiday",
    method: Method::Post,
    path: &[Text("holidays")],
    fields: &[Day],
    formats: Formats::Fixed,
};

const REPORT: Row = Row {
    command: "report",
    method: Method::Post,
    path: &[Text("accounts"), Of(Account), Text("reported")],
    fields: &[Account, Quarter, Amount],
    formats: Formats::Fixed,
};

const REPORT_YEAR: Row = Row {
    command: "report-year",
    method: Method::Post,
    path: &[Text("accounts"), Of(Account), Text("reported-years")],
    fields: &[Account, Year, Amount],
    formats: Formats::Fixed,
};

const OPEN_YEAR: Row = Row {
    command: "open-year",
    method: Method::Post,
    path: &[Text("accounts"), Of(Account), Text("years")],
    fields: &[Account, Year],
    formats: Formats::Fixed,
};

const POST: Row = Row {
    command: "post",
    method: Method::Post,
    path: &[Text("accounts"), Of(Account), Text("runs")],
    fields: &[Account, Run, Payday, Fit, Ss, Medicare],
    formats: Formats::Fixed,
};

const VOID: Row = Row {
    command: "void",
    method: Method::Delete,
    path: &[Text("accounts"), Of(Account), Text("runs"), Of(RunToVoid)],
    fields: &[Account, RunToVoid],
    formats: Formats::Fixed,
};

const PAY: Row = Row {
    command: "pay",
    method: Method::Post,
    path: &[Text("accounts"), Of(Account), Text("payments")],
    fields: &[Account, Payment, Paid, For, Amount],
    formats: Formats::Fixed,
};

const VOID_PAY: Row = Row {
    command: "void-pay",
    method: Method::Delete,
    path: &[
        Text("accounts"),
        Of(Account),
        Text("payments"),
        Of(PaymentToVoid),
    ],
    fields: &[Account, PaymentToVoid],
    formats: Formats::Fixed,
};

const CORRECT_REPORT: Row = Row {
    command: "correct-report",
    method: Method::Put,
    path: &[
        Text("accounts"),
        Of(Account),
        Text("reported"),
        Of(Quarter),
        Text("corrections"),
        Of(Number),
    ],
    fields: &[Account, Quarter, Number, Amount],
    formats: Formats::Fixed,
};

const CORRECT_REPORT_YEAR: Row = Row {
    command: "correct-report-year",
    method: Method::Put,
    path: &[
        Text("accounts"),
        Of(Account),
        Text("reported-years"),
        Of(Year),
        Text("corrections"),
        Of(Number),
    ],
    fields: &[Account, Year, Number, Amount],
    formats: Formats::Fixed,
};

const CHANGE_HOLIDAY: Row = Row {
    command: "change-holiday",
    method: Method::Put,
    path: &[Text("holidays"), Of(Day), Text("changes"), Of(Number)],
    fields: &[Day, Number, IsHoliday],
    formats: Formats::Fixed,
};

const CORRECT_ACCOUNT: Row = Row {
    command: "correct-account",
    method: Method::Put,
    path: &[
        Text("accounts"),
        Of(Account),
        Text("corrections"),
        Of(Number),
    ],
    fields: &[Account, Number, Start, Carried],
    formats: Formats::Fixed,
};

const STATUS: Row = Row {
    command: "status",
    method: Method::Get,
    path: &[Text("accounts"), Of(Account), Text("status"), Of(Day)],
    fields: &[Account, Day],
    formats: Formats::Fixed,
};

const EXPLAIN: Row = Row {
    command: "explain",
    method: Method::Get,
    path: &[Text("accounts"), Of(Account), Text("explain"), Of(Day)],
    fields: &[Account, Day],
    formats: Formats::Explanation,
};

const DUE_LIST: Row = Row {
    command: "due",
    method: Method::Get,
    path: &[
        Text("accounts"),
        Of(Account),
        Text("due"),
        Of(Quarter),
        Of(AsOf),
    ],
    fields: &[Account, Quarter, AsOf],
    formats: Formats::List,
};

const SCHEDULE_B: Row = Row {
    command: "schedule-b",
    method: Method::Get,
    path: &[
        Text("accounts"),
        Of(Account),
        Text("schedule-b"),
        Of(Quarter),
    ],
    fields: &[Account, Quarter],
    formats: Formats::List,
};

const AGENDA: Row = Row {
    command: "agenda",
    method: Method::Get,
    path: &[Text("agenda"), Of(From), Of(To), Of(AsOfToday)],
    fields: &[From, To, AsOfToday],
    formats: Formats::Calendar,
};

const OWED: Row = Row {
    command: "owed",
    method: Method::Get,
    path: &[Text("owed"), Of(AsOfToday), Of(Until)],
    fields: &[AsOfToday, Until],
    formats: Formats::Calendar,
};

const UNAPPLIED: Row = Row {
    command: "unapplied",
    method: Method::Get,
    path: &[Text("unapplied"), Of(LastDay)],
    fields: &[LastDay],
    formats: Formats::List,
};

const ACCOUNTS: Row = Row {
    command: "accounts",
    method: Method::Get,
    path: &[Text("lists"), Text("accounts")],
    fields: &[],
    formats: Formats::List,
};

const YEARS: Row = Row {
    command: "years",
    method: Method::Get,
    path: &[Text("lists"), Text("accounts"), Of(Account), Text("years")],
    fields: &[Account],
    formats: Formats::List,
};

const REPORTED: Row = Row {
    command: "reported",
    method: Method::Get,
    path: &[
        Text("lists"),
        Text("accounts"),
        Of(Account),
        Text("reported"),
    ],
    fields: &[Account],
    formats: Formats::List,
};

const HOLIDAYS: Row = Row {
    command: "holidays",
    method: Method::Get,
    path: &[Text("lists"), Text("holidays"), Of(Year)],
    fields: &[Year],
    formats: Formats::List,
};

const RUNS: Row = Row {
    command: "runs",
    method: Method::Get,
    path: &[
        Text("lists"),
        Text("accounts"),
        Of(Account),
        Text("runs"),
        Of(Quarter),
    ],
    fields: &[Account, Quarter],
    formats: Formats::List,
};

const PAYMENTS: Row = Row {
    command: "payments",
    method: Method::Get,
    path: &[
        Text("lists"),
        Text("accounts"),
        Of(Account),
        Text("payments"),
        Of(Quarter),
    ],
    fields: &[Account, Quarter],
    formats: Formats::List,
};

impl Verb {
    /// Its row.
    pub fn row(self) -> Row
        ensures { row_seen result ≡ row_of self }
    {
        match self {
            Verb::Enrol => ENROL,
            Verb::Calendar => CALENDAR,
            Verb::AddHoliday => ADD_HOLIDAY,
            Verb::Report => REPORT,
            Verb::ReportYear => REPORT_YEAR,
            Verb::OpenYear => OPEN_YEAR,
            Verb::Post => POST,
            Verb::Void => VOID,
            Verb::Pay => PAY,
            Verb::VoidPay => VOID_PAY,
            Verb::CorrectReport => CORRECT_REPORT,
            Verb::CorrectReportYear => CORRECT_REPORT_YEAR,
            Verb::ChangeHoliday => CHANGE_HOLIDAY,
            Verb::CorrectAccount => CORRECT_ACCOUNT,
            Verb::Status => STATUS,
            Verb::Explain => EXPLAIN,
            Verb::DueList => DUE_LIST,
            Verb::ScheduleB => SCHEDULE_B,
            Verb::Agenda => AGENDA,
            Verb::Owed => OWED,
            Verb::Unapplied => UNAPPLIED,
            Verb::Accounts => ACCOUNTS,
            Verb::Years => YEARS,
            Verb::Reported => REPORTED,
            Verb::Holidays => HOLIDAYS,
            Verb::Runs => RUNS,
            Verb::Payments => PAYMENTS,
        }
    }

    /// Whether it corrects something, under a number of its own.
    pub fn is_correction(self) -> bool
        ensures { result ≡ is_correction self }
    {
        match self.row().method {
            Method::Put => true,
            Method::Get | Method::Post | Method::Delete => false,
        }
    }
}
