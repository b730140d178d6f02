//! What follows from the definitions alone: each function's contract is a law, its body is empty.

ghost use Rattle.std.specs.Prelude.{◌≡◌, ℕ, List, true, filter, map};
ghost use Rattle.ftd_rules.specs.Accounts.{is_account_name};
ghost use Rattle.ftd_rules.specs.Lists.{Has};
ghost use Rattle.ftd_csv.specs.Records.{HasHeader, records_of};
ghost use Rattle.ftd_csv.specs.declared.sheets.Sheet.TheVariants.{Runs};
ghost use Rattle.ftd_answers.specs.KeptForms.{runs_csv};
ghost use Rattle.ftd_machine.specs.Told.{kept_answer};
ghost use Rattle.ftd_machine.specs.Runs.{IsReached};
ghost use Rattle.ftd_machine.specs.State.{State};
ghost use Rattle.ftd_machine.specs.Step.{Step};
ghost use Rattle.ftd_machine.specs.declared.kept.KeptRows.TheVariants as rows;
ghost use Rattle.ftd_machine.specs.declared.kept.KeptRun.{KeptRun};
ghost use Rattle.ftd_machine.specs.declared.requests.KeptList.TheVariants as kept;
ghost use Rattle.ftd_machine.specs.declared.requests.Question.TheVariants as question;
ghost use Rattle.ftd_machine.specs.declared.requests.Request.TheVariants.{Question};
ghost use Rattle.ftd_imports.specs.Exports.{IsPosted, is_live, said_as};

/// The CSV of an account's runs has the header of an import, and under it the records of exactly
/// the runs that were not voided, in their order, each with its account, number, payday and
/// amounts.
pub fn exported_runs_are_read_again()
    ensures header { (account : List ℕ) (listed : List KeptRun) → is_account_name account ≡ true
        → ((x : KeptRun) → Has listed x → IsPosted x) → HasHeader Runs (runs_csv account listed) }
    ensures records { (account : List ℕ) (listed : List KeptRun)
        → is_account_name account ≡ true
        → ((x : KeptRun) → Has listed x → IsPosted x)
        → records_of Runs (runs_csv account listed)
        ≡ map (said_as account) (filter is_live listed) }
{}

/// What a desk that requests lead to answers of the runs of an account's quarter, told as CSV, is
/// what an import reads as exactly those that were not voided.
pub fn exported_runs_are_imported()
    ensures { (s : State) (account : List ℕ) (quarter : ℕ) (listed : List KeptRun) (next : State)
        → IsReached s
        → Step s (Question (question.Kept (kept.Runs account quarter)))
        (kept_answer (rows.Runs account quarter listed)) next
        → HasHeader Runs (runs_csv account listed)
        × (records_of Runs (runs_csv account listed)
        ≡ map (said_as account) (filter is_live listed)) }
{}
