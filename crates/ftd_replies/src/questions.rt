//! What is said where a year or a day of a question is out of range.

ghost use Rattle.std.specs.Prelude.{◌≡◌};
ghost use Rattle.ftd_replies.specs.Questions.{days_asked, years_asked};

use ftd_machine::{KeptList, Question};

/// What is said of a year that is none of those in which paydays are.
pub const PAYDAYS_YEARS: &[u8] = b"hint: the years of paydays are 2001 to 2098\n";

/// What is said of a year that is none of those whose holidays may be given.
pub const CALENDARS_YEARS: &[u8] = b"hint: the years of calendars are 2001 to 2099\n";

/// What is said of a day of none of the years in which paydays are.
pub const PAYDAYS_DAYS: &[u8] = b"hint: the days of paydays are those of 2001 to 2098\n";

/// What is said of a year of a question that is out of range.
pub fn years_asked(question: &Question) -> &'static [u8]
    ensures { result.now ≡ years_asked question.now }
{
    match question {
        Question::Kept(KeptList::Holidays { .. }) => CALENDARS_YEARS,
        _ => PAYDAYS_YEARS,
    }
}

/// What is said of a day of a question that is out of range.
pub fn days_asked(question: &Question) -> &'static [u8]
    ensures { result.now ≡ days_asked question.now }
{
    match question {
        Question::DueList { .. } => b"hint: ASOF must be in 2001 to 2099\n",
        Question::Agenda { .. } | Question::Owed { .. } => {
            b"hint: an agenda is of days of 2001 to 2099\n"
        }
        Question::Unapplied { .. } => b"hint: UNTIL must be in 2001 to 2099\n",
        _ => PAYDAYS_DAYS,
    }
}
