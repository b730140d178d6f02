//! The words of a form: of its verb, and of its fields.

ghost use Rattle.std.specs.Prelude.{◌≡◌};
ghost use Rattle.ftd_site.specs.FormWords.{help_of, label_of, sentence_of, title_of};

use ftd_pages::columns::{
    ACCOUNT, AMOUNT, CARRIED, DAY, FIT, FOR_DAY, FORM, HOLIDAY, MEDICARE, PAID_ON, PAYDAY, PAYMENT,
    RUN, SS, START, YEAR,
};
use ftd_verbs::{Field, Verb};

/// What a verb does: the title of its form, and the words of its button. Empty for a question.
pub fn title(verb: Verb) -> &'static str
    ensures { result.now ≡ title_of verb }
{
    match verb {
        Verb::Enrol => "Enrol an account",
        Verb::Calendar => "Enter the legal holidays of a year",
        Verb::AddHoliday => "Add a legal holiday",
        Verb::Report => "Report a quarter (Form 941)",
        Verb::ReportYear => "Report a year (Form 943)",
        Verb::OpenYear => "Open a year",
        Verb::Post => "Post a pay run",
        Verb::Void => "Void a pay run",
        Verb::Pay => "Record a payment",
        Verb::VoidPay => "Void a payment",
        Verb::CorrectReport => "Correct a reported quarter (Form 941)",
        Verb::CorrectReportYear => "Correct a reported year (Form 943)",
        Verb::ChangeHoliday => "Correct a legal holiday",
        Verb::CorrectAccount => "Correct an account",
        Verb::Status
        | Verb::Explain
        | Verb::DueList
        | Verb::ScheduleB
        | Verb::Agenda
        | Verb::Owed
        | Verb::Unapplied
        | Verb::Accounts
        | Verb::Years
        | Verb::Reported
        | Verb::Holidays
        | Verb::Runs
        | Verb::Payments => "",
    }
}

/// What a clerk should know of a verb. Empty for a question.
pub fn sentence(verb: Verb) -> &'static str
    ensures { result.now ≡ sentence_of verb }
{
    match verb {
        Verb::Enrol => "Enter each employer once.",
        Verb::Calendar => "Due dates depend on the legal holidays in the District of Columbia.",
        Verb::AddHoliday =>
            "Add a holiday to a year that was entered. Due dates that depend on it move.",
        Verb::Report => "Enter the total tax of the quarter, as on its Form 941.",
        Verb::ReportYear => "Enter the total tax of the year, as on its Form 943.",
        Verb::OpenYear => "An account takes pay runs in its open years.",
        Verb::Post =>
            "Enter the taxes of one payday. The deposit and its due date follow from them.",
        Verb::Void => "A void pay run counts for nothing. It stays in the lists, marked as void.",
        Verb::Pay => "It counts for the deposit period that includes the day under For.",
        Verb::VoidPay =>
            "A void payment counts for nothing. It stays in the lists, marked as void.",
        Verb::CorrectReport =>
            "The last correction counts. What was first reported stays on record.",
        Verb::CorrectReportYear =>
            "The last correction counts. What was first reported stays on record.",
        Verb::ChangeHoliday =>
            "The last change counts. The holidays that were entered stay on record.",
        Verb::CorrectAccount => "This works as long as no total is reported and no year is open.",
        Verb::Status
        | Verb::Explain
        | Verb::DueList
        | Verb::ScheduleB
        | Verb::Agenda
        | Verb::Owed
        | Verb::Unapplied
        | Verb::Accounts
        | Verb::Years
        | Verb::Reported
        | Verb::Holidays
        | Verb::Runs
        | Verb::Payments => "",
    }
}

/// The label of the control of a field. Empty where only questions have it.
pub fn label(field: Field) -> &'static str
    ensures { result.now ≡ label_of field }
{
    match field {
        Field::Account => ACCOUNT.word,
        Field::Start => START.word,
        Field::Carried => CARRIED.word,
        Field::Form => FORM.word,
        Field::Year => YEAR.word,
        Field::Days => "Legal holidays",
        Field::Quarter => "Quarter",
        Field::Amount => AMOUNT.word,
        Field::Run | Field::RunToVoid => RUN.word,
        Field::Payday => PAYDAY.word,
        Field::Fit => FIT.word,
        Field::Ss => SS.word,
        Field::Medicare => MEDICARE.word,
        Field::Payment | Field::PaymentToVoid => PAYMENT.word,
        Field::Paid => PAID_ON.word,
        Field::For => FOR_DAY.word,
        Field::Number => "Correction",
        Field::IsHoliday => HOLIDAY.word,
        Field::Day => DAY.word,
        Field::AsOf | Field::AsOfToday | Field::From | Field::To | Field::Until | Field::LastDay =>
            "",
    }
}

/// The help of the control of a field. Empty where only questions have it.
pub fn help(field: Field) -> &'static str
    ensures { result.now ≡ help_of field }
{
    match field {
        Field::Account =>
            "The name of the account: a lower-case letter, then letters, digits or hyphens.",
        Field::Start => "The first day of the employer.",
        Field::Carried =>
            "Check this if the account became semiweekly in the year before its first open year.",
        Field::Form => "The form that the employer files.",
        Field::Year => "The year, as 2024.",
        Field::Days => "In ascending order, one a line, as 2024-05-27.",
        Field::Quarter => "The quarter, as 2024Q1.",
        Field::Amount => "The amount in dollars, as 1234.50.",
        Field::Run => "The number of the new pay run.",
        Field::RunToVoid => "The number of the pay run to void.",
        Field::Payday => "The day on which the wages are paid.",
        Field::Fit => "The federal income tax withheld, as 1234.50.",
        Field::Ss => "Both shares of social security tax, as 1234.50.",
        Field::Medicare => "Both shares of Medicare tax, as 1234.50.",
        Field::Payment => "The number of the new payment.",
        Field::PaymentToVoid => "The number of the payment to void.",
        Field::Paid => "The day on which it was paid.",
        Field::For => "A day of the deposit period that it is paid for.",
        Field::Number => "The number of the correction. Leave it empty for the next one.",
        Field::IsHoliday => "Whether the day is a legal holiday.",
        Field::Day => "The day of the holiday.",
        Field::AsOf | Field::AsOfToday | Field::From | Field::To | Field::Until | Field::LastDay =>
            "",
    }
}
