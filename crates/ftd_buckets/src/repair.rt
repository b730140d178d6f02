//! A repair as a value that asks for one window after the other.

ghost use Rattle.std.specs.Prelude.{◌≡◌, ℕ, ◌+◌, ◌<◌, ◌≤◌, IfOk, List, [], ◌∷◌};
ghost use Rattle.std.specs.List.{sum_by, All};
ghost use Rattle.ftd_days.specs.Holidays.{holidays_of};
ghost use Rattle.ftd_rules.specs.declared.YearLine.{YearLine};
ghost use Rattle.ftd_rules.specs.Liability.{cents_of, SumsRise};
ghost use Rattle.ftd_rules.specs.Years.{AreOpenYears};
ghost use Rattle.ftd_buckets.specs.Histories.{History, IsChange, AreLast, BeginWith, TurnsWithin};
ghost use Rattle.ftd_buckets.specs.Windows.{IsPeriodOf, IsNext, IsLastNeeded};
ghost use Rattle.ftd_buckets.specs.Patches.{AreSumsOf, IsPatch};
ghost use Rattle.ftd_buckets.specs.Standing.{Stands, IfDone, IfNeed, amount_held};

use crate::Window;
use crate::state::{Next, Progress, Repair, Stage};
use ftd_days::{Day, Holidays};
use ftd_rules::period::period_of;
use ftd_rules::year::first_semiweekly_day;
use ftd_rules::{AMOUNTS_END, DaySum, Form, YearLine};
use std::alloc::{AllocError, Global};

impl<'a> Repair<'a> {
    /// A repair after a change of the runs of a day, and the first window: the deposit period of
    /// the day. The lines are those before the change, from the day's year on.
    pub fn begin(
        form: Form,
        alloc: Global,
        lines: &'a [YearLine],
        holidays: &'a Holidays,
        day: Day,
    ) -> (Repair<'a>, Window)
        requires years { AreOpenYears lines.now }
        requires turns { All TurnsWithin lines.now }
        requires first { BeginWith day lines.now }
        ensures window { (line : YearLine) × (later : List YearLine) × (lines.now ≡ line ∷ later)
            × IsPeriodOf form line day result.1 }
        ensures form { result.0.form ≡ form }
        ensures asked { result.0.asked ≡ result.1 }
        ensures held { amount_held result.0 ≡ 0 }
        ensures stands { (before after : History) → IsChange day before after
            → AreLast before lines.now
            → Stands form day (holidays_of holidays.now) before after result.0 }
    {
        holidays.end_before_2100();
        let rows = Vec::new(alloc);
        let years = Vec::new(alloc);
        let held = Vec::new(alloc);
        let line = lines[0];
        let period = period_of(form, first_semiweekly_day(&line), day);
        let from = period.first;
        let to = period.last;
        let settled = Progress {
            form,
            from,
            asked: Window { from, to },
            rows,
            years,
            held,
            lines,
            holidays,
        };
        let repair = Repair {
            stage: Stage::Period,
            settled,
        };
        (repair, Window { from, to })
    }

    /// Takes the day sums of the window that was asked for, as they are after the change: their
    /// days rise and lie in it. `Err` says that memory ran out.
    pub fn feed(self, sums: &[DaySum]) -> Result<Next<'a>, AllocError>
        requires rise { SumsRise self.asked.from self.asked.to sums.now }
        requires small { amount_held self + sum_by cents_of sums.now < AMOUNTS_END }
        ensures form { IfOk result
            (λ next. IfNeed next (λ repair window. repair.form ≡ self.entry.form)) }
        ensures asked { IfOk result (λ next. IfNeed next (λ repair window. repair.asked ≡ window)) }
        ensures held { IfOk result
            (λ next. IfNeed next
            (λ repair window. amount_held repair
            ≤ amount_held self.entry + sum_by cents_of sums.now)) }
        ensures need { IfOk result
            (λ next. IfNeed next
            (λ repair window. (day : ℕ) (holidays : List ℕ) (before after : History)
            → Stands self.entry.form day holidays before after self.entry
            → AreSumsOf after self.entry.asked sums.now
            → Stands self.entry.form day holidays before after repair
            × IsNext self.entry.form day before after self.entry.asked window)) }
        ensures done { IfOk result
            (λ next. IfDone next (λ patch. (day : ℕ) (holidays : List ℕ) (before after : History)
            → Stands self.entry.form day holidays before after self.entry
            → AreSumsOf after self.entry.asked sums.now
            → IsPatch self.entry.form day before after holidays self.entry.asked patch
            × IsLastNeeded self.entry.form day before after self.entry.asked)) }
    {
        let Repair { settled, stage } = self;
        match stage {
            Stage::Period => settled.feed_period(sums),
            Stage::Rest { first, turn } => settled.feed_rest(first, turn, sums),
            Stage::Year(turned) => settled.feed_year(turned, sums),
        }
    }
}
