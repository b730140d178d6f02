//! What follows from the definitions alone: each function's contract is a law, and its body is
//! empty. The command of a hint is decided as the request that the hint names.

ghost use Rattle.std.specs.Prelude.{◌≡◌, [], ◌∷◌, ℕ, Err, List, Option, Result, Some, codes, false};
ghost use Rattle.std.specs.Prelude.{option_map, true};
ghost use Rattle.clap.specs.Words.{Text};
ghost use Rattle.ftd_days.specs.Spelling.{day_of};
ghost use Rattle.ftd_days.specs.declared.cents.Cents.{Cents};
ghost use Rattle.ftd_machine.specs.Requests.{is_form};
ghost use Rattle.ftd_machine.specs.State.{State};
ghost use Rattle.ftd_machine.specs.Step.{Step};
ghost use Rattle.ftd_machine.specs.declared.entries.Account.{Account};
ghost use Rattle.ftd_machine.specs.declared.entries.ReturnPeriod.TheVariants.{Quarter, Year};
ghost use Rattle.ftd_machine.specs.declared.replies.Refusal.{Refusal};
ghost use Rattle.ftd_machine.specs.declared.replies.Refusal.TheVariants as refusal;
ghost use Rattle.ftd_machine.specs.declared.requests.Correction.TheVariants as correction;
ghost use Rattle.ftd_machine.specs.declared.requests.Entry.TheVariants as entry;
ghost use Rattle.ftd_machine.specs.declared.requests.Request.{Request};
ghost use Rattle.ftd_machine.specs.declared.requests.Request.TheVariants as request;
ghost use Rattle.ftd_verbs.specs.declared.rows.Verb.TheVariants as verb;
ghost use Rattle.ftd_cli.specs.Asking.{Wanted};
ghost use Rattle.ftd_cli.specs.Clocks.{DecidesOn};
ghost use Rattle.ftd_cli.specs.Tasks.{named_command};
ghost use Rattle.ftd_cli.specs.Words.{amount_of};
ghost use Rattle.ftd_cli.specs.declared.table.Name.TheVariants as name;
ghost use Rattle.ftd_cli.specs.declared.tasks.CliFault.{CliFault};
ghost use Rattle.ftd_cli.specs.declared.tasks.Task.{Task};
ghost use Rattle.ftd_replies.specs.Below.{already_hint};
ghost use Rattle.ftd_replies.specs.Enrolment.{advice_text};
ghost use Rattle.ftd_replies.specs.Hints.{account_in, hint_text, left_out_text, new_text};
ghost use Rattle.ftd_replies.specs.Hints.{number_in, quarter_hint};
ghost use Rattle.ftd_replies.specs.LineLaws.{IsDay, IsName, IsNumber, IsPeriod};
ghost use Rattle.ftd_replies.specs.LineRequests.{value_as};
ghost use Rattle.ftd_replies.specs.declared.enrolment.Enrolment.{Enrolment};
ghost use Rattle.ftd_hinted.specs.Hinted.{AreDays, Ask, HasValues, IsDecided, IsFile, Shows};
ghost use Rattle.ftd_hinted.specs.Hinted.{ShowsWhole, begun, beginning_of, command_in, form_meant};
ghost use Rattle.ftd_hinted.specs.Hinted.{of_desk, under_next, verb_meant};

/// The hint of something that is missing shows the command that enters it, of the request's account
/// in the desk's file.
pub fn what_is_missing_is_entered_by_its_hint()
    // A year that is not open is opened.
    ensures open_year { (asked : Request) (db : List ℕ) (year : ℕ) → IsFile db
        → IsName (account_in asked) → IsNumber year
        → ShowsWhole db (hint_text db asked (refusal.YearNotOpen year))
        (of_desk db (request.Enter (entry.Year (account_in asked) year))) }

    // The calendar of a year is given, with any days in the place of `DAY ..`.
    ensures calendar { (asked : Request) (db : List ℕ) (year : ℕ) (words : List Text)
        (days : List ℕ) → IsFile db → IsNumber year → AreDays words days
        → Shows db (hint_text db asked (refusal.CalendarMissing year))
        (codes "DAY" ∷ codes ".." ∷ []) words
        (of_desk db (request.Enter (entry.Calendar year days))) }

    // The total of a quarter is reported, with any amount in the place of `AMOUNT`.
    ensures report { (asked : Request) (db : List ℕ) (quarter : ℕ) (amount : Text) (cents : Cents)
        → IsFile db → IsName (account_in asked) → IsPeriod (Quarter quarter)
        → value_as amount_of amount ≡ Some cents
        → Shows db (hint_text db asked (refusal.QuarterMissing quarter))
        (codes "AMOUNT" ∷ []) (amount ∷ [])
        (of_desk db (request.Enter (entry.Total (account_in asked) (Quarter quarter) cents))) }

    // So it is by each line of the hint that lists the quarters that are missing.
    ensures each_quarter { (account db : List ℕ) (quarter : ℕ) (amount : Text) (cents : Cents)
        → IsFile db → IsName account → IsPeriod (Quarter quarter)
        → value_as amount_of amount ≡ Some cents
        → Shows db (quarter_hint db account quarter) (codes "AMOUNT" ∷ []) (amount ∷ [])
        (of_desk db (request.Enter (entry.Total account (Quarter quarter) cents))) }

    // The total of a year is reported, with any amount in the place of `AMOUNT`.
    ensures report_year { (asked : Request) (db : List ℕ) (year : ℕ) (amount : Text)
        (cents : Cents) → IsFile db → IsName (account_in asked) → IsNumber year
        → value_as amount_of amount ≡ Some cents
        → Shows db (hint_text db asked (refusal.YearMissing year))
        (codes "AMOUNT" ∷ []) (amount ∷ [])
        (of_desk db (request.Enter (entry.Total (account_in asked) (Year year) cents))) }

    // The account is enrolled, with any day in the place of `START`: as one of Form 943 where a
    // year's total was to be reported, else as one of Form 941.
    ensures enrol { (asked : Request) (db : List ℕ) (start : Text) (day : ℕ) → IsFile db
        → IsName (account_in asked) → value_as day_of start ≡ Some day
        → Shows db (hint_text db asked refusal.UnknownAccount)
        (codes "START" ∷ []) (start ∷ [])
        (of_desk db (request.Enter
        (entry.Account (account_in asked) (begun day (form_meant asked))))) }
{}

/// The hint of a number that another pay run or payment has shows the command that voids that one.
pub fn what_has_the_number_is_voided_by_its_hint()
    ensures run { (asked : Request) (db : List ℕ) → IsFile db → IsName (account_in asked)
        → IsNumber (number_in asked)
        → ShowsWhole db (hint_text db asked refusal.RunDiffers)
        (of_desk db (request.Void (account_in asked) (number_in asked))) }
    ensures payment { (asked : Request) (db : List ℕ) → IsFile db → IsName (account_in asked)
        → IsNumber (number_in asked)
        → ShowsWhole db (hint_text db asked refusal.PaymentDiffers)
        (of_desk db (request.VoidPay (account_in asked) (number_in asked))) }
{}

/// The hint of something that is known otherwise shows the command that corrects it, under the next
/// number.
pub fn what_differs_is_corrected_by_its_hint()
    // A quarter's total, or a year's, with any amount in the place of `AMOUNT`.
    ensures report { (account db : List ℕ) (quarter : ℕ) (given cents : Cents) (amount : Text)
        → IsFile db → IsName account → IsPeriod (Quarter quarter)
        → value_as amount_of amount ≡ Some cents
        → Shows db (hint_text db (request.Enter (entry.Total account (Quarter quarter) given))
        refusal.QuarterDiffers) (codes "AMOUNT" ∷ []) (amount ∷ [])
        (under_next db (correction.Total account (Quarter quarter) cents)) }
    ensures report_year { (account db : List ℕ) (year : ℕ) (given cents : Cents) (amount : Text)
        → IsFile db → IsName account → IsNumber year → value_as amount_of amount ≡ Some cents
        → Shows db (hint_text db (request.Enter (entry.Total account (Year year) given))
        refusal.YearDiffers) (codes "AMOUNT" ∷ []) (amount ∷ [])
        (under_next db (correction.Total account (Year year) cents)) }

    // How an account begins, with any day in the place of `START`; it is not carried then.
    ensures account { (name db : List ℕ) (given : Account) (start : Text) (day : ℕ) → IsFile db
        → IsName name → value_as day_of start ≡ Some day
        → Shows db (hint_text db (request.Enter (entry.Account name given)) refusal.AccountDiffers)
        (codes "START" ∷ []) (start ∷ [])
        (under_next db (correction.Account name (record { start = day; carried = false }))) }

    // How an account begins, as it was asked, where the desk knows of what form it is and that
    // nothing rests on it.
    ensures enrolment { (name db : List ℕ) (enrolment : Enrolment) → IsFile db → IsName name
        → IsDay enrolment.asked.start
        → is_form enrolment.asked.form enrolment.kept.form ≡ true → enrolment.is_unused ≡ true
        → ShowsWhole db (advice_text db name enrolment)
        (under_next db (correction.Account name (beginning_of enrolment.asked))) }

    // A day that was not given with the calendar is added to it, and one that was given is taken
    // back.
    ensures new_day { (db : List ℕ) (day : ℕ) → IsFile db → IsDay day
        → ShowsWhole db (new_text db (Some day)) (of_desk db (request.Enter (entry.Holiday day))) }
    ensures left_out { (db : List ℕ) (day : ℕ) → IsFile db → IsDay day
        → ShowsWhole db (left_out_text db (Some day))
        (under_next db (correction.Holiday day false)) }

    // Below the reply that a day is a holiday already, it is made one again.
    ensures again { (db : List ℕ) (day : ℕ) → IsFile db → IsDay day
        → ShowsWhole db (already_hint db (request.Enter (entry.Holiday day)))
        (under_next db (correction.Holiday day true)) }
{}

/// A hint that says what a command is for, and shows no other words of it, names one that there is.
pub fn a_command_that_is_named_exists()
    // What is reported or corrected on the other form: a year's total in the place of a quarter's,
    // or the other way round. No command is named where something else has no Schedule B.
    ensures form { (db : List ℕ) (asked : Request)
        → named_command (command_in (hint_text db asked refusal.WrongForm))
        ≡ option_map name.Verb (verb_meant asked) }

    // What adds a holiday to a calendar that was given, or makes a day one.
    ensures calendar { (db : List ℕ) (asked : Request)
        → named_command (command_in (hint_text db asked refusal.CalendarDiffers))
        ≡ Some (name.Verb verb.AddHoliday) }
    ensures no_holiday { (db : List ℕ) (asked : Request)
        → named_command (command_in (hint_text db asked refusal.NoHoliday))
        ≡ Some (name.Verb verb.AddHoliday) }
{}

/// Where the words of a command ask something, whatever day it is, that is what the command line
/// decides, on the day that any clock tells, unless memory ran out.
pub fn what_is_asked_is_decided()
    ensures { (words : List Text) (wanted : Wanted) (told : Option ℕ)
        (decided : Result Task CliFault) → Ask words wanted → DecidesOn told words decided
        → IsDecided wanted decided }
{}

/// Where the desk refuses a request by a refusal whose hint shows a command, the values that the
/// hint shows are an account name, a number, a year, a quarter or a day, as the laws above want
/// them.
pub fn a_refusal_has_the_values_of_its_hint()
    ensures { (s : State) (asked : Request) (refused : Refusal) (new : State)
        → Step s asked (Err refused) new → HasValues asked refused }
{}
