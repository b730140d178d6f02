//! What follows from the definitions alone: each function's contract is a law, its body is empty.

ghost use Rattle.std.specs.Prelude.{◌≡◌, ◌≤◌, ◌<◌, ◌↔◌, ℕ, ◌∷◌, ◌++◌, length, List, Some, Ok};
ghost use Rattle.std.specs.Prelude.{true, false};
ghost use Rattle.ftd_machine.specs.State.{State, entries_of, holidays, nothing};
ghost use Rattle.ftd_days.specs.Calendar.{quarter_of};
ghost use Rattle.ftd_days.specs.declared.cents.Cents.{Cents};
ghost use Rattle.ftd_rules.specs.declared.verdict.DueRow.{DueRow};
ghost use Rattle.ftd_rules.specs.Lists.{Has};
ghost use Rattle.ftd_rules.specs.Liability.{liability};
ghost use Rattle.ftd_rules.specs.Payments.{paid_by};
ghost use Rattle.ftd_machine.specs.History.{live_sums, live_payments, HasLookback};
ghost use Rattle.ftd_machine.specs.Checks.{Answer};
ghost use Rattle.ftd_machine.specs.Step.{Step};
ghost use Rattle.ftd_machine.specs.Runs.{IsRun, IsReached};
ghost use Rattle.ftd_machine.specs.Sound.{IsSound};
ghost use Rattle.ftd_machine.specs.Laws.{is_change, IsBounded, Names, AgreeOn, IsRepeat};
ghost use Rattle.ftd_machine.specs.Journal.{journal, AreChanges, SameEntries};
ghost use Rattle.ftd_machine.specs.Agenda.{due_date_of, first_day_of, left_of, IsAgendaRow};
ghost use Rattle.ftd_machine.specs.Agenda.{IsCutOf};
ghost use Rattle.ftd_machine.specs.PaidInTime.{IsMissed, GoesOn, IsPaidInTime};
ghost use Rattle.ftd_rules.specs.declared.verdict.Verdict.TheVariants.{Short};
ghost use Rattle.ftd_machine.specs.declared.entries.Account.{Account};
ghost use Rattle.ftd_machine.specs.declared.lists.AgendaRow.{AgendaRow};
ghost use Rattle.ftd_machine.specs.declared.replies.Reply.{Reply};
ghost use Rattle.ftd_machine.specs.Told.{agenda_answer, due_answer, owed_answer};
ghost use Rattle.ftd_machine.specs.declared.replies.Reply.TheVariants as reply;
ghost use Rattle.ftd_machine.specs.declared.requests.Request.{Request};
ghost use Rattle.ftd_machine.specs.declared.requests.Request.TheVariants.{Question};
ghost use Rattle.ftd_machine.specs.declared.requests.Question.TheVariants.{DueList, Agenda, Owed};

use ftd_rules::AMOUNTS_END;

/// A refusal, the answer that a request was done before, and the answer to a question leave
/// everything as it was.
#[tactic(auto, using(crate::proofs::Leaving::leaves))]
pub fn refusals_change_nothing()
    ensures { (s : State) (request : Request) (answer : Answer) (next : State)
        → Step s request answer next → is_change answer ≡ false → next ≡ s }
{}

/// A request leaves the entries of each account that it does not name.
#[tactic(auto, using(crate::proofs::Others::others))]
pub fn other_accounts_stay()
    ensures { (s : State) (request : Request) (answer : Answer) (next : State) (account : List ℕ)
        → Step s request answer next → (Names request account → ⊥)
        → entries_of next account ≡ entries_of s account }
{}

/// Each state that requests lead to from an empty desk is sound, and a step leaves a sound state
/// sound.
pub fn reached_states_are_sound()
    ensures step { (s : State) (request : Request) (answer : Answer) (next : State)
        → Step s request answer next → IsSound s → IsSound next }
    ensures reached { (s : State) → IsReached s → IsSound s }
{}

/// In a sound state, as each is that requests lead to, a request has one answer and one next state.
#[tactic(auto, using(crate::proofs::Alike::answers_once))]
pub fn a_request_has_one_answer()
    ensures { (s : State) (request : Request) (answer other : Answer) (next after : State)
        → IsSound s → Step s request answer next → Step s request other after
        → (answer ≡ other) × (next ≡ after) }
{}

/// In a sound state, each request has an answer and a next state.
#[tactic(auto, using(crate::proofs::AnswerSome::each_request_is_answered))]
pub fn each_request_has_an_answer()
    ensures { (s : State) (request : Request) → IsSound s
        → (answer : Answer) × (next : State) × Step s request answer next }
{}

/// Each sum of an account of a sound state is below 6,000,000,000,000,000 cents: what it owes for a
/// run of days, what was paid for one, and the total of a lookback period.
pub fn sums_are_small()
    ensures liability { (s : State) (name : List ℕ) (first last : ℕ) → IsSound s
        → liability (live_sums (entries_of s name)) first last < AMOUNTS_END }
    ensures paid { (s : State) (name : List ℕ) (first last as_of day : ℕ) → IsSound s
        → paid_by (live_payments (entries_of s name)) first last as_of day < AMOUNTS_END }
    ensures lookback { (s : State) (name : List ℕ) (year : ℕ) (total : Cents) → IsSound s
        → HasLookback (entries_of s name) year total → total.0 < AMOUNTS_END }
{}

/// In a sound state, the amounts of a list that a request is answered with, a due list or the days
/// of Schedule B, are together below 6,000,000,000,000,000 cents.
#[tactic(auto, using(crate::proofs::Listed::lists_bounded))]
pub fn lists_are_bounded()
    ensures { (s : State) (request : Request) (reply : Reply) (next : State)
        → IsSound s → Step s request (Ok reply) next → IsBounded reply }
{}

/// What a request that names an account is answered, and what is kept of the account then, rests on
/// the account's own entries, the calendars and the added holidays.
pub fn replies_rest_on_own_rows()
    // Each answer of a state is one of every state that agrees on these, and they agree afterwards.
    ensures each { (s t : State) (request : Request) (answer : Answer) (next : State)
        (account : List ℕ) → Names request account → AgreeOn account s t
        → Step s request answer next
        → (after : State) × Step t request answer after × AgreeOn account next after }

    // So sound states that agree give equal replies.
    ensures equal { (s t : State) (request : Request) (answer other : Answer)
        (next after : State) (account : List ℕ) → IsSound t → Names request account
        → AgreeOn account s t → Step s request answer next → Step t request other after
        → (answer ≡ other) × AgreeOn account next after }
{}

/// In any list, a request that was answered Done or Posted is answered Already, or by a fault, at
/// each later place; and the list without that place has the same other answers, and ends in the
/// same state.
#[tactic(auto, using(crate::proofs::Repeats::repeats))]
pub fn a_repeat_changes_nothing()
    ensures { (s end : State) (before between after : List Request) (request : Request)
        (answers_before answers_between answers_after : List Answer) (answer again : Answer)
        → length answers_before ≡ length before → length answers_between ≡ length between
        → IsRun s (before ++ request ∷ between ++ request ∷ after)
        (answers_before ++ answer ∷ answers_between ++ again ∷ answers_after) end
        → is_change answer ≡ true
        → IsRepeat again
        × IsRun s (before ++ request ∷ between ++ after)
        (answers_before ++ answer ∷ answers_between ++ answers_after) end }
{}

/// A journal makes the same desk: from an empty desk on, each request of the journal of a sound
/// state is answered Done or Posted, and at the end the desk has the same entries under the same
/// keys.
#[tactic(auto, using(crate::proofs::JournalMakes::journal_makes))]
pub fn a_journal_makes_the_same_desk()
    ensures { (s : State) → IsSound s
        → (answers : List Answer) × (end : State) × IsRun nothing (journal s) answers end
        × AreChanges answers × SameEntries s end }
{}

/// Sound states that have the same entries, in whatever order these were accepted, answer every
/// request equally, and have the same entries afterwards.
pub fn same_entries_give_same_answers()
    // Each answer of one is an answer of the other, and they have the same entries afterwards.
    ensures each { (s t : State) (request : Request) (answer : Answer) (next : State)
        → IsSound s → IsSound t → SameEntries s t → Step s request answer next
        → (after : State) × Step t request answer after × SameEntries next after }

    // So their answers are equal.
    ensures equal { (s t : State) (request : Request) (answer other : Answer)
        (next after : State) → IsSound s → IsSound t → SameEntries s t
        → Step s request answer next → Step t request other after
        → (answer ≡ other) × SameEntries next after }
{}

/// What is due over all accounts is all due lists, cut by due date: a row of an account that is
/// enrolled is one of the agenda exactly where the account's due list of the quarter in which it
/// begins, as of the day, has it, and it is due on one of the days.
pub fn an_agenda_is_all_due_lists()
    ensures { (s after then : State) (from to as_of : ℕ) (rows : List AgendaRow) (x : AgendaRow)
        (account : Account) (due : List DueRow) → IsSound s
        → Step s (Question (Agenda from to as_of)) (agenda_answer from to as_of rows) after
        → (entries_of s x.account).account ≡ Some account
        → Step s (Question (DueList x.account (quarter_of (first_day_of x)) as_of))
        (due_answer x.account (quarter_of (first_day_of x)) as_of due) then
        → Has rows x ↔ IsCutOf (holidays s) from to as_of account due x }
{}

/// What is owed is what is left of the agenda: from any day on, the rows that are owed until a day
/// are those of the agenda until it of which something is left to pay.
#[tactic(auto, using(crate::proofs::Agendas::owed_is_left))]
pub fn what_is_owed_is_left_of_the_agenda()
    ensures { (s after then : State) (from until as_of : ℕ) (rows owed : List AgendaRow)
        (x : AgendaRow)
        → Step s (Question (Agenda from until as_of)) (agenda_answer from until as_of rows) after
        → Step s (Question (Owed until as_of)) (owed_answer until as_of owed) then
        → (Has owed x × (from ≤ due_date_of x)) ↔ (Has rows x × (0 < left_of x.row)) }
{}

/// What is paid in full by the day to pay by is never late: whatever pay runs are posted or voided
/// on later paydays, outside its deposit period, the obligation stays as it is, and its verdict as
/// of any day is neither short nor late. A deposit that is short already stays so until its
/// shortfall is paid: of such a row this is said of the days from the day to pay by on.
pub fn what_is_paid_by_its_day_is_never_late()
    ensures { (s later : State) (as_of then : ℕ) (x y : AgendaRow) → IsSound s
        → IsAgendaRow s as_of x → IsAgendaRow later then y
        → y.account ≡ x.account → first_day_of y ≡ first_day_of x
        → GoesOn s later as_of x → IsPaidInTime (entries_of later x.account) as_of x
        → (x.row.verdict ≡ Short → x.pay_by ≤ then)
        → (y.row.obligation ≡ x.row.obligation) × (IsMissed y.row.verdict → ⊥) }
{}
