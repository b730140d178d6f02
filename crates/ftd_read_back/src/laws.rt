//! What follows from the definitions alone: each function's contract is a law, its body is empty.

ghost use Rattle.std.specs.Prelude.{◌≡◌, ◌≤◌, ◌<◌, ◌^◌, ℕ, List, All, Some, codes, filter, length};
ghost use Rattle.std.specs.Prelude.{IfSome, Option, map, not, true};
ghost use Rattle.std.specs.List.{sum_by};
ghost use Rattle.ftd_days.specs.Calendar.{last_day};
ghost use Rattle.ftd_rules.specs.Accounts.{is_account_name};
ghost use Rattle.ftd_rules.specs.Liability.{cents_of};
ghost use Rattle.ftd_rules.specs.Verdicts.{amount_of};
ghost use Rattle.ftd_rules.specs.declared.DaySum.{DaySum};
ghost use Rattle.ftd_rules.specs.declared.Kind.{Kind};
ghost use Rattle.ftd_rules.specs.declared.verdict.DueRow.{DueRow};
ghost use Rattle.ftd_machine.specs.Agenda.{due_date_of, left_of};
ghost use Rattle.ftd_machine.specs.Runs.{IsReached};
ghost use Rattle.ftd_machine.specs.State.{State};
ghost use Rattle.ftd_machine.specs.Step.{Step};
ghost use Rattle.ftd_machine.specs.Told.{agenda_answer, days_answer, due_answer, kept_answer};
ghost use Rattle.ftd_machine.specs.Told.{explained_answer, owed_answer, status_answer};
ghost use Rattle.ftd_machine.specs.Told.{unapplied_answer};
ghost use Rattle.ftd_machine.specs.declared.explained.Explanation.{Explanation};
ghost use Rattle.ftd_machine.specs.declared.facts.DaySchedule.{DaySchedule};
ghost use Rattle.ftd_machine.specs.declared.facts.OwedList.{OwedList};
ghost use Rattle.ftd_machine.specs.declared.kept.KeptAccount.{KeptAccount};
ghost use Rattle.ftd_machine.specs.declared.kept.KeptHoliday.{KeptHoliday};
ghost use Rattle.ftd_machine.specs.declared.kept.KeptPayment.{KeptPayment};
ghost use Rattle.ftd_machine.specs.declared.kept.KeptRows.TheVariants as rows;
ghost use Rattle.ftd_machine.specs.declared.kept.KeptRun.{KeptRun};
ghost use Rattle.ftd_machine.specs.declared.kept.KeptTotal.{KeptTotal};
ghost use Rattle.ftd_machine.specs.declared.kept.KeptYear.{KeptYear};
ghost use Rattle.ftd_machine.specs.declared.lists.AgendaRow.{AgendaRow};
ghost use Rattle.ftd_machine.specs.declared.lists.UnappliedRow.{UnappliedRow};
ghost use Rattle.ftd_machine.specs.declared.replies.Reason.{Reason};
ghost use Rattle.ftd_machine.specs.declared.requests.KeptList.TheVariants as kept;
ghost use Rattle.ftd_machine.specs.declared.requests.Question.TheVariants.{DueList, Agenda, Owed};
ghost use Rattle.ftd_machine.specs.declared.requests.Question.TheVariants.{Kept, ScheduleB};
ghost use Rattle.ftd_machine.specs.declared.requests.Question.TheVariants.{Explain, Status};
ghost use Rattle.ftd_machine.specs.declared.requests.Question.TheVariants.{Unapplied};
ghost use Rattle.ftd_machine.specs.declared.requests.Request.TheVariants.{Question};
ghost use Rattle.ftd_answers.specs.Agendas.{left_cents};
ghost use Rattle.ftd_answers.specs.Calendars.{agenda_calendar};
ghost use Rattle.ftd_answers.specs.Dues.{agenda_csv, agenda_json, b_csv, b_json, due_csv, due_json};
ghost use Rattle.ftd_answers.specs.ExplanationForms.{explanation_json};
ghost use Rattle.ftd_answers.specs.Formats.{owed_as};
ghost use Rattle.ftd_answers.specs.KeptForms.{rows_csv, rows_json};
ghost use Rattle.ftd_answers.specs.Schedules.{schedule_as};
ghost use Rattle.ftd_answers.specs.Unapplied.{unapplied_csv, unapplied_json};
ghost use Rattle.ftd_answers.specs.declared.formats.Format.TheVariants.{List as Listed};
ghost use Rattle.ftd_answers.specs.declared.formats.ListFormat.TheVariants.{Csv, Json};
ghost use Rattle.ftd_read_back.specs.Cells.{table_read};
ghost use Rattle.ftd_read_back.specs.Dates.{date_of, start_dates};
ghost use Rattle.ftd_read_back.specs.Events.{event_cells, events_read};
ghost use Rattle.ftd_read_back.specs.Explained.{explained_object, explained_read, object_read};
ghost use Rattle.ftd_read_back.specs.Explained.{schedule_object, schedule_read};
ghost use Rattle.ftd_read_back.specs.Kept.{account_cells, account_object_read, account_read};
ghost use Rattle.ftd_read_back.specs.Kept.{holiday_cells, holiday_object_read, holiday_read};
ghost use Rattle.ftd_read_back.specs.Kept.{liable_cells, liable_object_read, liable_read};
ghost use Rattle.ftd_read_back.specs.Kept.{run_cells, run_object, run_object_read, run_read};
ghost use Rattle.ftd_read_back.specs.Kept.{total_cells, total_object, total_object_read};
ghost use Rattle.ftd_read_back.specs.Kept.{total_read, unapplied_cells, unapplied_object_read};
ghost use Rattle.ftd_read_back.specs.Kept.{unapplied_read, year_cells, year_object_read};
ghost use Rattle.ftd_read_back.specs.Kept.{year_read};
ghost use Rattle.ftd_read_back.specs.Lines.{AreLines};
ghost use Rattle.ftd_read_back.specs.Objects.{agenda_object_read, due_object_read, objects_read};
ghost use Rattle.ftd_read_back.specs.Objects.{payment_object, payment_object_read, sum_read};
ghost use Rattle.ftd_read_back.specs.Rows.{AreAccountsInRange, AreAgendaRowsInRange};
ghost use Rattle.ftd_read_back.specs.Rows.{AreDaySumsInRange, AreDueRowsInRange};
ghost use Rattle.ftd_read_back.specs.Rows.{AreHolidaysInRange, ArePaymentsInRange};
ghost use Rattle.ftd_read_back.specs.Rows.{AreRunsInRange, AreTotalsInRange};
ghost use Rattle.ftd_read_back.specs.Rows.{AreUnappliedInRange, AreYearsInRange};
ghost use Rattle.ftd_read_back.specs.Rows.{IsExplanationInRange, IsReasonInRange};
ghost use Rattle.ftd_read_back.specs.Tables.{agenda_cells, agenda_read, due_cells, due_read};
ghost use Rattle.ftd_read_back.specs.Tables.{payment_cells, payment_read};

/// A text is one list of lines at most, each with CR and LF behind it.
#[tactic(auto, using(crate::proofs::Lines::same_lines))]
pub fn a_text_has_one_list_of_lines()
    ensures { (text : List ℕ) (lines others : List (List ℕ))
        → AreLines text lines → AreLines text others → lines ≡ others }
{}

/// A calendar is made of lines, each with CR and LF behind it and neither inside, and no line of it
/// has more than 75 bytes: RFC 5545 wants longer ones folded.
pub fn no_line_of_a_calendar_is_long()
    ensures lines { (as_of : ℕ) (rows : List AgendaRow) → AreAgendaRowsInRange rows
        → (lines : List (List ℕ)) × AreLines (agenda_calendar as_of rows) lines }
    ensures short { (as_of : ℕ) (rows : List AgendaRow) (lines : List (List ℕ))
        → AreAgendaRowsInRange rows → AreLines (agenda_calendar as_of rows) lines
        → All (λ line. length line ≤ 75) lines }
{}

/// The events of a calendar, in their order, are on the due dates of its rows: the lines that begin
/// with `DTSTART;VALUE=DATE:` say these dates.
pub fn events_are_on_due_dates()
    ensures dates { (as_of : ℕ) (rows : List AgendaRow) (lines : List (List ℕ))
        → AreAgendaRowsInRange rows → AreLines (agenda_calendar as_of rows) lines
        → start_dates lines ≡ map (λ x. date_of (due_date_of x)) rows }

    // The lines of each event say the date, and in its summary the account, its form, the rule and
    // what is left to pay, in cents: these are those of the rows, in their order.
    ensures events { (as_of : ℕ) (rows : List AgendaRow) (lines : List (List ℕ))
        → AreAgendaRowsInRange rows → AreLines (agenda_calendar as_of rows) lines
        → events_read lines ≡ map event_cells rows }
{}

/// A date, which is what is read of a day here, is that of one day: there is no other day up to
/// 31 December 2199 with the same year, month and day of the month.
#[tactic(auto, using(crate::proofs::Dates::same_day))]
pub fn a_date_is_of_one_day()
    ensures { (a b : ℕ) → a ≤ last_day → b ≤ last_day → date_of a ≡ date_of b → a ≡ b }
{}

/// The rows that a desk which requests lead to answers with are such as the other laws ask for: of
/// what is due between two days, of what is not paid, of an account's due list, and of every other
/// list. The amounts of a due list have together 64 bits too, and so has the liability of a quarter
/// by day. Such are also the deposit schedule of a day, and why an obligation is so.
pub fn answered_rows_are_in_range()
    ensures agenda { (s : State) (from to as_of : ℕ) (rows : List AgendaRow) (next : State)
        → IsReached s
        → Step s (Question (Agenda from to as_of)) (agenda_answer from to as_of rows) next
        → AreAgendaRowsInRange rows }
    ensures owed { (s : State) (until as_of : ℕ) (rows : List AgendaRow) (next : State)
        → IsReached s → Step s (Question (Owed until as_of)) (owed_answer until as_of rows) next
        → AreAgendaRowsInRange rows }
    ensures due { (s : State) (account : List ℕ) (quarter as_of : ℕ) (rows : List DueRow)
        (next : State) → IsReached s
        → Step s (Question (DueList account quarter as_of)) (due_answer account quarter as_of rows)
        next
        → (is_account_name account ≡ true) × AreDueRowsInRange rows
        × (sum_by amount_of rows < 2 ^ 64) × (sum_by left_of rows < 2 ^ 64) }
    ensures payments { (s : State) (account : List ℕ) (quarter : ℕ) (listed : List KeptPayment)
        (next : State) → IsReached s
        → Step s (Question (Kept (kept.Payments account quarter)))
        (kept_answer (rows.Payments account quarter listed)) next
        → (is_account_name account ≡ true) × ArePaymentsInRange listed }
    ensures runs { (s : State) (account : List ℕ) (quarter : ℕ) (listed : List KeptRun)
        (next : State) → IsReached s
        → Step s (Question (Kept (kept.Runs account quarter)))
        (kept_answer (rows.Runs account quarter listed)) next
        → (is_account_name account ≡ true) × AreRunsInRange listed }
    ensures accounts { (s : State) (listed : List KeptAccount) (next : State) → IsReached s
        → Step s (Question (Kept kept.Accounts)) (kept_answer (rows.Accounts listed)) next
        → AreAccountsInRange listed }
    ensures years { (s : State) (account : List ℕ) (listed : List KeptYear) (next : State)
        → IsReached s
        → Step s (Question (Kept (kept.Years account))) (kept_answer (rows.Years account listed))
        next
        → (is_account_name account ≡ true) × AreYearsInRange listed }
    ensures reported { (s : State) (account : List ℕ) (listed : List KeptTotal) (next : State)
        → IsReached s
        → Step s (Question (Kept (kept.Reported account)))
        (kept_answer (rows.Reported account listed)) next
        → (is_account_name account ≡ true) × AreTotalsInRange listed }
    ensures holidays { (s : State) (year : ℕ) (listed : List KeptHoliday) (next : State)
        → IsReached s
        → Step s (Question (Kept (kept.Holidays year))) (kept_answer (rows.Holidays year listed))
        next
        → AreHolidaysInRange listed }
    ensures unapplied { (s : State) (until : ℕ) (rows : List UnappliedRow) (next : State)
        → IsReached s → Step s (Question (Unapplied until)) (unapplied_answer until rows) next
        → AreUnappliedInRange rows }
    ensures by_day { (s : State) (account : List ℕ) (quarter : ℕ) (sums : List DaySum)
        (next : State) → IsReached s
        → Step s (Question (ScheduleB account quarter)) (days_answer account quarter sums) next
        → (is_account_name account ≡ true) × AreDaySumsInRange sums
        × (sum_by cents_of sums < 2 ^ 64) }
    ensures schedule { (s : State) (account : List ℕ) (day : ℕ) (kind : Kind) (why : Reason)
        (next : State) → IsReached s
        → Step s (Question (Status account day)) (status_answer day kind why) next
        → (day ≤ last_day) × IsReasonInRange why }
    ensures explained { (s : State) (account : List ℕ) (day : ℕ) (found : Option Explanation)
        (next : State) → IsReached s
        → Step s (Question (Explain account day)) (explained_answer account day found) next
        → (is_account_name account ≡ true) × (day ≤ last_day)
        × IfSome found IsExplanationInRange }
{}

/// The CSV of what is due over all accounts, be it an agenda or what is owed, is read back: `csv`,
/// by its default reading, reads of it a row of names, and under it a row for each of its rows, in
/// their order, with the account, its form, the days, the rule, the amounts and the verdict under
/// their names.
pub fn an_agenda_is_read_from_its_csv()
    ensures agenda { (rows : List AgendaRow) → AreAgendaRowsInRange rows
        → table_read agenda_read (agenda_csv rows) ≡ map agenda_cells rows }
    ensures owed { (owed : OwedList) → AreAgendaRowsInRange owed.rows
        → table_read agenda_read (owed_as (Listed Csv) owed) ≡ map agenda_cells owed.rows }
{}

/// So is that of an account's due list, which has the makeup date of each row.
#[tactic(auto, using(crate::proofs::Tables::due_table))]
pub fn a_due_list_is_read_from_its_csv()
    ensures { (account : List ℕ) (rows : List DueRow) → is_account_name account ≡ true
        → AreDueRowsInRange rows
        → table_read due_read (due_csv account rows) ≡ map (due_cells account) rows }
{}

/// So is that of an account's payments: it has those that were not voided, and no others.
#[tactic(auto, using(crate::proofs::Tables::payment_table))]
pub fn payments_are_read_from_their_csv()
    ensures { (account : List ℕ) (quarter : ℕ) (listed : List KeptPayment)
        → is_account_name account ≡ true → ArePaymentsInRange listed
        → table_read payment_read (rows_csv (rows.Payments account quarter listed))
        ≡ map (payment_cells account) (filter (λ x. not x.voided) listed) }
{}

/// So is that of every other list: an account's pay runs, those that were not voided and no others;
/// the accounts; an account's open years and its reported totals; the holidays of a year; money
/// that counts for nothing; and the liability of an account's quarter by day.
pub fn lists_are_read_from_their_csv()
    ensures runs { (account : List ℕ) (quarter : ℕ) (listed : List KeptRun)
        → is_account_name account ≡ true → AreRunsInRange listed
        → table_read run_read (rows_csv (rows.Runs account quarter listed))
        ≡ map (run_cells account) (filter (λ x. not x.voided) listed) }
    ensures accounts { (listed : List KeptAccount) → AreAccountsInRange listed
        → table_read account_read (rows_csv (rows.Accounts listed)) ≡ map account_cells listed }
    ensures years { (account : List ℕ) (listed : List KeptYear) → is_account_name account ≡ true
        → AreYearsInRange listed
        → table_read year_read (rows_csv (rows.Years account listed))
        ≡ map (year_cells account) listed }
    ensures reported { (account : List ℕ) (listed : List KeptTotal)
        → is_account_name account ≡ true → AreTotalsInRange listed
        → table_read total_read (rows_csv (rows.Reported account listed))
        ≡ map (total_cells account) listed }
    ensures holidays { (year : ℕ) (listed : List KeptHoliday) → AreHolidaysInRange listed
        → table_read holiday_read (rows_csv (rows.Holidays year listed))
        ≡ map holiday_cells listed }
    ensures unapplied { (rows : List UnappliedRow) → AreUnappliedInRange rows
        → table_read unapplied_read (unapplied_csv rows) ≡ map unapplied_cells rows }
    ensures by_day { (account : List ℕ) (sums : List DaySum) → is_account_name account ≡ true
        → AreDaySumsInRange sums
        → table_read liable_read (b_csv account sums) ≡ map (liable_cells account) sums }
{}

/// The JSON of what is due over all accounts, be it an agenda or what is owed, of an account's due
/// list, of its payments, and of every other list is read back: `serde_json` reads an object, whose
/// member `rows` is an array with an object for each row, in their order, with the same values
/// under their names; of payments and pay runs also of those that were voided.
pub fn lists_are_read_from_their_json()
    ensures agenda { (rows : List AgendaRow) → AreAgendaRowsInRange rows
        → objects_read agenda_object_read (agenda_json rows) ≡ Some (map agenda_cells rows) }
    ensures owed { (owed : OwedList) → AreAgendaRowsInRange owed.rows
        → objects_read agenda_object_read (owed_as (Listed Json) owed)
        ≡ Some (map agenda_cells owed.rows) }
    ensures due { (account : List ℕ) (rows : List DueRow) → is_account_name account ≡ true
        → AreDueRowsInRange rows
        → objects_read due_object_read (due_json account rows)
        ≡ Some (map (due_cells account) rows) }
    ensures payments { (account : List ℕ) (quarter : ℕ) (listed : List KeptPayment)
        → is_account_name account ≡ true → ArePaymentsInRange listed
        → objects_read payment_object_read (rows_json (rows.Payments account quarter listed))
        ≡ Some (map (payment_object account) listed) }
    ensures runs { (account : List ℕ) (quarter : ℕ) (listed : List KeptRun)
        → is_account_name account ≡ true → AreRunsInRange listed
        → objects_read run_object_read (rows_json (rows.Runs account quarter listed))
        ≡ Some (map (run_object account) listed) }
    ensures accounts { (listed : List KeptAccount) → AreAccountsInRange listed
        → objects_read account_object_read (rows_json (rows.Accounts listed))
        ≡ Some (map account_cells listed) }
    ensures years { (account : List ℕ) (listed : List KeptYear) → is_account_name account ≡ true
        → AreYearsInRange listed
        → objects_read year_object_read (rows_json (rows.Years account listed))
        ≡ Some (map (year_cells account) listed) }
    ensures reported { (account : List ℕ) (listed : List KeptTotal)
        → is_account_name account ≡ true → AreTotalsInRange listed
        → objects_read total_object_read (rows_json (rows.Reported account listed))
        ≡ Some (map (total_object account) listed) }
    ensures holidays { (year : ℕ) (listed : List KeptHoliday) → AreHolidaysInRange listed
        → objects_read holiday_object_read (rows_json (rows.Holidays year listed))
        ≡ Some (map holiday_cells listed) }
    ensures unapplied { (rows : List UnappliedRow) → AreUnappliedInRange rows
        → objects_read unapplied_object_read (unapplied_json rows)
        ≡ Some (map unapplied_cells rows) }
    ensures by_day { (account : List ℕ) (sums : List DaySum) → is_account_name account ≡ true
        → AreDaySumsInRange sums
        → objects_read liable_object_read (b_json account sums)
        ≡ Some (map (liable_cells account) sums) }
{}

/// The JSON of the deposit schedule of a day is read back: `serde_json` reads an object with the
/// day, the schedule, why the account has it, and beside `turned` the day on which 100,000.00 was
/// reached.
#[tactic(auto, using(crate::proofs::Schedules::schedule_reread))]
pub fn a_schedule_is_read_from_its_json()
    ensures { (x : DaySchedule) → x.day ≤ last_day → IsReasonInRange x.reason
        → object_read schedule_read (schedule_as (Listed Json) x)
        ≡ Some (schedule_object x.day x.kind x.reason) }
{}

/// So is that of why an obligation is so: an object with what was asked for, and where there is an
/// obligation with its days, its rule and its amount, the deposit schedule of its first day, its
/// paydays, the days that are counted to its due date, the day on which the return is due, and its
/// payments, each of these as it is told, in their order. Where there is none, it is null.
#[tactic(auto, using(crate::proofs::Explained::explanation_reread))]
pub fn an_explanation_is_read_from_its_json()
    ensures { (account : List ℕ) (day : ℕ) (found : Option Explanation)
        → is_account_name account ≡ true → day ≤ last_day → IfSome found IsExplanationInRange
        → object_read explained_read (explanation_json account day found)
        ≡ Some (explained_object account day found) }
{}

/// The sums behind the rows of a list are read back too, in cents, where they have 64 bits: what is
/// left to pay of all rows of an agenda, or of what is owed; of a due list the amounts, and what is
/// left of them; of the liability by day the amounts.
pub fn sums_are_read_from_their_json()
    ensures agenda_left { (rows : List AgendaRow) → AreAgendaRowsInRange rows
        → sum_by left_cents rows < 2 ^ 64
        → sum_read (codes "left") (agenda_json rows) ≡ Some (sum_by left_cents rows) }
    ensures owed_left { (owed : OwedList) → AreAgendaRowsInRange owed.rows
        → sum_by left_cents owed.rows < 2 ^ 64
        → sum_read (codes "left") (owed_as (Listed Json) owed)
        ≡ Some (sum_by left_cents owed.rows) }
    ensures due_amount { (account : List ℕ) (rows : List DueRow) → is_account_name account ≡ true
        → AreDueRowsInRange rows → sum_by amount_of rows < 2 ^ 64
        → sum_read (codes "amount") (due_json account rows) ≡ Some (sum_by amount_of rows) }
    ensures due_left { (account : List ℕ) (rows : List DueRow) → is_account_name account ≡ true
        → AreDueRowsInRange rows → sum_by left_of rows < 2 ^ 64
        → sum_read (codes "left") (due_json account rows) ≡ Some (sum_by left_of rows) }
    ensures by_day { (account : List ℕ) (sums : List DaySum) → is_account_name account ≡ true
        → AreDaySumsInRange sums → sum_by cents_of sums < 2 ^ 64
        → sum_read (codes "amount") (b_json account sums) ≡ Some (sum_by cents_of sums) }
{}
