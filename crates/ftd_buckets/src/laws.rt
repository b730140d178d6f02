//! What follows from the definitions alone: each function's contract is a law, and its body is
//! empty.

ghost use Rattle.std.specs.Prelude.{◌≡◌, ℕ, ◌+◌, ◌<◌, ◌≤◌, List, [], length};
ghost use Rattle.ftd_days.specs.Calendar.{year_start};
ghost use Rattle.ftd_rules.specs.declared.Form.{Form};
ghost use Rattle.ftd_rules.specs.declared.YearLine.{YearLine};
ghost use Rattle.ftd_rules.specs.declared.Obligation.{Obligation};
ghost use Rattle.ftd_rules.specs.Lists.{Has};
ghost use Rattle.ftd_rules.specs.Periods.{IsPeriod};
ghost use Rattle.ftd_rules.specs.Years.{year_last, IsSemiweeklyOn};
ghost use Rattle.ftd_buckets.specs.declared.Window.{Window};
ghost use Rattle.ftd_buckets.specs.declared.Patch.{Patch};
ghost use Rattle.ftd_buckets.specs.Windows.{NoTurnDiffers, IsLastNeeded};
ghost use Rattle.ftd_buckets.specs.Histories.{History, IsHistory, IsChange};
ghost use Rattle.ftd_buckets.specs.Patches.{AreRows, IsPatch};

/// At most four obligations begin in a semiweekly deposit period.
pub fn a_semiweekly_period_has_four_rows()
    ensures { (form : Form) (h : History) (holidays : List ℕ) (line : YearLine) (first last : ℕ)
        (rows : List Obligation) → IsHistory h → Has h.lines line
        → IsPeriod form line first last → IsSemiweeklyOn line first
        → AreRows form h holidays first (last + 1) rows → length rows ≤ 4 }
{}

/// At most one obligation begins in a monthly deposit period: a count that stops before its last
/// day would have turned the year, and ended the period.
pub fn a_monthly_period_has_one_row()
    ensures { (form : Form) (h : History) (holidays : List ℕ) (line : YearLine) (first last : ℕ)
        (rows : List Obligation) → IsHistory h → Has h.lines line
        → IsPeriod form line first last → (IsSemiweeklyOn line first → ⊥)
        → AreRows form h holidays first (last + 1) rows → length rows ≤ 1 }
{}

/// A patch of a change by which no year's turn differs changes no line. It has at most four rows,
/// and at most one where the day's deposit period before the change is monthly.
pub fn a_patch_is_small_where_no_turn_differs()
    ensures lines { (form : Form) (day : ℕ) (before after : History) (holidays : List ℕ)
        (fed : Window) (patch : Patch)
        → IsChange day before after → NoTurnDiffers before after
        → IsPatch form day before after holidays fed patch → patch.years ≡ [] }
    ensures four { (form : Form) (day : ℕ) (before after : History) (holidays : List ℕ)
        (fed : Window) (patch : Patch)
        → IsChange day before after → NoTurnDiffers before after
        → IsPatch form day before after holidays fed patch
        → IsLastNeeded form day before after fed → length patch.rows ≤ 4 }
    ensures one { (form : Form) (day : ℕ) (before after : History) (holidays : List ℕ)
        (fed : Window) (patch : Patch) (line : YearLine)
        → IsChange day before after → NoTurnDiffers before after
        → IsPatch form day before after holidays fed patch
        → IsLastNeeded form day before after fed
        → Has before.lines line → year_start line.year ≤ day → day ≤ year_last line.year
        → (IsSemiweeklyOn line patch.from → ⊥) → length patch.rows ≤ 1 }
{}
