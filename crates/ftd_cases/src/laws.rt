//! What follows from the definitions alone: each function's contract is a law, and its body is
//! empty.

ghost use Rattle.std.specs.Prelude.{◌≡◌, ◌↔◌, ℕ, true, false, List, Some, Ok, Option};
ghost use Rattle.std.specs.Prelude.{option_map, IsSomeAnd};
ghost use Rattle.std.specs.List.{AllZip, sum_by, count_by};
ghost use Rattle.ftd_days.specs.Business.{is_holiday};
ghost use Rattle.ftd_days.specs.Calendar.{quarter_of};
ghost use Rattle.ftd_days.specs.Holidays.{IsWithHoliday};
ghost use Rattle.ftd_rules.specs.declared.DaySum.{DaySum};
ghost use Rattle.ftd_rules.specs.declared.Form.{Form};
ghost use Rattle.ftd_rules.specs.declared.Obligation.{Obligation};
ghost use Rattle.ftd_rules.specs.declared.Rule.{Rule};
ghost use Rattle.ftd_rules.specs.declared.YearLine.{YearLine};
ghost use Rattle.ftd_rules.specs.declared.verdict.DueRow.{DueRow};
ghost use Rattle.ftd_rules.specs.Due.{IsDue};
ghost use Rattle.ftd_rules.specs.Laws.{Covers};
ghost use Rattle.ftd_rules.specs.Lists.{Has};
ghost use Rattle.ftd_rules.specs.Obligations.{AreObligations};
ghost use Rattle.ftd_machine.specs.State.{State, entries_of, holidays, nothing};
ghost use Rattle.ftd_machine.specs.Checks.{Answer};
ghost use Rattle.ftd_machine.specs.History.{AreOwed};
ghost use Rattle.ftd_machine.specs.Runs.{IsRun};
ghost use Rattle.ftd_machine.specs.Sound.{IsSound};
ghost use Rattle.ftd_machine.specs.Step.{Step};
ghost use Rattle.ftd_machine.specs.Told.{due_answer, explained_answer};
ghost use Rattle.ftd_machine.specs.declared.explained.Explanation.{Explanation};
ghost use Rattle.ftd_machine.specs.declared.replies.Reply.TheVariants as reply;
ghost use Rattle.ftd_machine.specs.declared.requests.Correction.TheVariants as correction;
ghost use Rattle.ftd_machine.specs.declared.requests.Question.{Question as Questions};
ghost use Rattle.ftd_machine.specs.declared.requests.Question.TheVariants.{Explain, DueList};
ghost use Rattle.ftd_machine.specs.declared.requests.Request.{Request};
ghost use Rattle.ftd_machine.specs.declared.requests.Request.TheVariants.{Correct, Question};
ghost use Rattle.ftd_cases.specs.Laws.{ComesEarlier, IsMovedBack, last_of, total_of};
ghost use Rattle.ftd_cases.specs.Laws.{cents_of_payday, business_days_of, is_counted_business};
ghost use Rattle.ftd_cases.specs.Laws.{IsDueDay, made_by};
ghost use Rattle.ftd_cases.specs.ToldRight.{asks_what_is_kept, told_right, corrects};

/// An explanation adds up. Its last running total, in cents, is the amount of the obligation, and
/// the liability of its paydays comes to that amount.
pub fn an_explanation_adds_up()
    ensures total { (s next : State) (name : List ℕ) (day : ℕ) (e : Explanation)
        → Step s (Question (Explain name day)) (explained_answer name day (Some e)) next
        → option_map total_of (last_of e.paydays) ≡ Some e.obligation.cents }
    ensures sum { (s next : State) (name : List ℕ) (day : ℕ) (e : Explanation)
        → Step s (Question (Explain name day)) (explained_answer name day (Some e)) next
        → sum_by cents_of_payday e.paydays ≡ e.obligation.cents.0 }
{}

/// An explanation counts business days by the rule of the obligation: three for a semiweekly
/// deposit, one for a next-day deposit, and for a monthly deposit the one on or after the 15th of
/// the next month.
pub fn an_explanation_counts_business_days()
    ensures count { (s next : State) (name : List ℕ) (day : ℕ) (e : Explanation)
        → Step s (Question (Explain name day)) (explained_answer name day (Some e)) next
        → count_by is_counted_business e.days ≡ business_days_of e.obligation.rule }

    // The last of its days is the due date, and a business day.
    ensures last { (s next : State) (name : List ℕ) (day : ℕ) (e : Explanation)
        → Step s (Question (Explain name day)) (explained_answer name day (Some e)) next
        → IsSomeAnd (last_of e.days) (IsDueDay e.obligation) }
{}

/// In a sound state, an explanation is of a row of a due list.
pub fn an_explanation_is_of_a_row_of_the_due_list()
    // The obligation is that of a row of the due list of the quarter in which it begins, as of any
    // day; and what the row shows as paid, in cents, is what the payments of the explanation that
    // were made by that day come to.
    ensures row { (s after next : State) (name : List ℕ) (day as_of : ℕ) (e : Explanation)
        (due : List DueRow) → IsSound s
        → Step s (Question (Explain name day)) (explained_answer name day (Some e)) after
        → Step s (Question (DueList name (quarter_of e.obligation.first) as_of))
        (due_answer name (quarter_of e.obligation.first) as_of due) next
        → (row : DueRow) × Has due row × (row.obligation ≡ e.obligation)
        × (row.paid.0 ≡ sum_by (made_by as_of) e.payments) }

    // On each day that a row of a due list covers, that row's obligation is explained.
    ensures each_day { (s after next : State) (name : List ℕ) (day quarter as_of : ℕ)
        (found : Option Explanation) (due : List DueRow) (row : DueRow) → IsSound s
        → Step s (Question (Explain name day)) (explained_answer name day found) after
        → Step s (Question (DueList name quarter as_of)) (due_answer name quarter as_of due) next
        → Has due row → Covers row.obligation day
        → IsSomeAnd found (λ e. e.obligation ≡ row.obligation) }
{}

/// A holiday that is taken back moves a due date exactly where it was counted, and never to a later
/// day. The due date comes earlier exactly where the day, which is a business day again, is not
/// before the first day that is counted toward it and not after it.
pub fn a_holiday_taken_back_moves_due_dates()
    ensures dates { (before after : List ℕ) (taken : ℕ) (rule : Rule) (last due new : ℕ)
        → IsWithHoliday after taken before → IsDue before rule last due → IsDue after rule last new
        → ComesEarlier after taken rule last due new }

    // Nothing else of a history's obligations changes.
    ensures obligations { (form : Form) (lines : List YearLine) (sums : List DaySum)
        (before after : List ℕ) (taken : ℕ) (rows others : List Obligation)
        → IsWithHoliday after taken before
        → AreObligations form lines sums before rows
        → AreObligations form lines sums after others
        → AllZip (IsMovedBack after taken) rows others }

    // So what an account of a sound desk owes moves, where a request takes a holiday back.
    ensures request { (s next : State) (number day : ℕ) (name : List ℕ)
        (rows others : List Obligation) → IsSound s → is_holiday (holidays s) day ≡ true
        → Step s (Correct number (correction.Holiday day false)) (Ok reply.Done) next
        → AreOwed (holidays s) (entries_of s name) rows
        → AreOwed (holidays next) (entries_of next name) others
        → AllZip (IsMovedBack (holidays next) day) rows others }
{}

/// A corrected desk answers as one that was told right at first. Where what is in force of
/// accounts, totals and holidays stands in the place of what was first given, and nothing is
/// corrected, each question has the same answers, but for those that ask what is kept.
pub fn a_corrected_desk_answers_as_one_told_right()
    ensures same { (s : State) (question : Questions) (answer : Answer)
        → asks_what_is_kept question ≡ false
        → Step s (Question question) answer s
        ↔ Step (told_right s) (Question question) answer (told_right s) }

    // Requests of which none corrects anything lead from an empty desk to one that answers so.
    ensures reached { (s : State) → IsSound s
        → (requests : List Request) × (answers : List Answer) × (end : State)
        × IsRun nothing requests answers end
        × ((request : Request) → Has requests request → corrects request ≡ false)
        × ((question : Questions) (answer : Answer) → asks_what_is_kept question ≡ false
        → Step s (Question question) answer s ↔ Step end (Question question) answer end) }
{}
