//! The three kinds of windows, and how a repair goes on from each.

ghost use Rattle.std.specs.Prelude.{◌≡◌, ℕ, ◌+◌, ◌<◌, ◌↔◌, IfOk, IsTrue, List, ◌∷◌};
ghost use Rattle.std.specs.List.{sum_by};
ghost use Rattle.ftd_rules.specs.declared.YearLine.{YearLine};
ghost use Rattle.ftd_rules.specs.Liability.{cents_of, SumsRise};
ghost use Rattle.ftd_rules.specs.declared.Kind.TheVariants as kind;
ghost use Rattle.ftd_rules.specs.Years.{year_last};
ghost use Rattle.ftd_rules.specs.Private.Years.{OpensBy};
ghost use Rattle.ftd_buckets.specs.Histories.{History};
ghost use Rattle.ftd_buckets.specs.Ready.{IsReady, repairing};
ghost use Rattle.ftd_buckets.specs.Private.Ready.{asking};
ghost use Rattle.ftd_buckets.specs.Standing.{Stands, amount_held};
ghost use Rattle.ftd_buckets.specs.Patches.{AreSumsOf};
ghost use Rattle.ftd_buckets.specs.Private.Turned.{IsTurnNow, IsWithin};
ghost use Rattle.ftd_buckets.specs.declared.turn.TurnNow.TheVariants as now;
ghost use Rattle.ftd_buckets.specs.Private.Answered.{Answers, Serves, Holds, IsAtYearEnd};
ghost use Rattle.ftd_buckets.specs.Private.Answered.{IsSettledYear};
ghost use Rattle.ftd_buckets.specs.declared.state.Stage.TheVariants as stage;
ghost use Rattle.ftd_buckets.specs.declared.state.Next.TheVariants as Next;

use crate::rows::add_rows;
use crate::state::{Next, Progress, Repair, Stage};
use crate::turn::{TurnNow, turn_from, turn_now};
use crate::{Patch, Window};
use ftd_days::Day;
use ftd_rules::period::period_of;
use ftd_rules::schedule::opening;
use ftd_rules::year::{add_year, days_within, first_day, first_semiweekly_day, last_day};
use ftd_rules::{AMOUNTS_END, DaySum, Kind, Obligations, YearLine, YearLines};
use std::alloc::AllocError;

impl<'a> Progress<'a> {
    /// Takes the sums of the changed day's deposit period.
    pub fn feed_period(mut self, sums: &[DaySum]) -> Result<Next<'a>, AllocError>
        requires ready { IsReady (repairing self stage.Period) }
        requires rise { SumsRise self.asked.from self.asked.to sums.now }
        requires small { sum_by cents_of sums.now < AMOUNTS_END }
        ensures { IfOk result (Answers (repairing self.entry stage.Period) sums.now) }
    {
        let line = self.lines[0];
        let asked = self.asked;
        let Window { from, to } = asked;
        match turn_now(&line, asked, sums) {
            TurnNow::Kept => {
                add_rows(
                    self.form,
                    &line,
                    from,
                    to,
                    sums,
                    self.holidays,
                    &mut self.rows,
                )?;
                Ok(Next::Done(self.patch()))
            }
            TurnNow::Changed(turn) if to == last_day(line.year) => self.feed_turned_last(
                turn, sums,
            ),
            TurnNow::Changed(turn) => self.feed_turned(turn, sums),
        }
    }

    /// Takes the sums of that period where it ends the year, and the turn of the year differs:
    /// `turn` is the turn, if there is one.
    fn feed_turned_last(
        mut self,
        turn: Option<Day>,
        sums: &[DaySum],
    ) -> Result<Next<'a>, AllocError>
        requires ready { IsReady (repairing self stage.Period) }
        requires within { (line : YearLine) (later : List YearLine) → self.lines.now ≡ line ∷ later
            → IsWithin line self.asked.from self.asked.to (now.Changed turn) }
        requires rise { SumsRise self.asked.from self.asked.to sums.now }
        requires small { sum_by cents_of sums.now < AMOUNTS_END }
        requires last { (line : YearLine) (later : List YearLine) → self.lines.now ≡ line ∷ later
            → self.asked.to ≡ year_last line.year }
        ensures holds { IfOk result
            (Holds self.entry.form
            (sum_by cents_of self.entry.held.items + sum_by cents_of sums.now)) }
        ensures serves { IfOk result (λ next. (day : ℕ) (holidays : List ℕ) (before after : History)
            → (st : Stands self.entry.form day holidays before after
            (repairing self.entry stage.Period)) → AreSumsOf after self.entry.asked sums.now
            → IsTurnNow st.old st.new self.entry.asked.to (now.Changed turn)
            → Serves self.entry.form day holidays before after self.entry.asked next) }
    {
        self.holidays.end_before_2100();
        let line = self.lines[0];
        let new = YearLine { turn, ..line };
        let asked = self.asked;
        let work = &mut self;
        add_rows(
            work.form,
            &new,
            asked.from,
            asked.to,
            sums,
            work.holidays,
            &mut work.rows,
        )?;
        self.after_year(&new)
    }

    /// Takes the sums of that period where the year goes on, and its turn differs: `turn` is the
    /// turn, if it has come.
    fn feed_turned(mut self, turn: Option<Day>, sums: &[DaySum]) -> Result<Next<'a>, AllocError>
        requires ready { IsReady (repairing self stage.Period) }
        requires within { (line : YearLine) (later : List YearLine) → self.lines.now ≡ line ∷ later
            → IsWithin line self.asked.from self.asked.to (now.Changed turn) }
        requires rise { SumsRise self.asked.from self.asked.to sums.now }
        requires small { sum_by cents_of sums.now < AMOUNTS_END }
        requires goes_on { (line : YearLine) (later : List YearLine) → self.lines.now ≡ line ∷ later
            → self.asked.to < year_last line.year }
        ensures holds { IfOk result
            (Holds self.entry.form
            (sum_by cents_of self.entry.held.items + sum_by cents_of sums.now)) }
        ensures serves { IfOk result (λ next. (day : ℕ) (holidays : List ℕ) (before after : History)
            → (st : Stands self.entry.form day holidays before after
            (repairing self.entry stage.Period)) → AreSumsOf after self.entry.asked sums.now
            → IsTurnNow st.old st.new self.entry.asked.to (now.Changed turn)
            → Serves self.entry.form day holidays before after self.entry.asked next) }
    {
        self.holidays.end_before_2100();
        let line = self.lines[0];
        let new = YearLine { turn, ..line };
        let asked = self.asked;
        let Window { from, to } = asked;
        let next = to.tomorrow();
        let last = last_day(line.year);
        let first = period_of(self.form, first_semiweekly_day(&new), to).first;
        let before = first.yesterday();
        let (settled, later) = sums.split_at(days_within(before, sums));
        add_rows(
            self.form,
            &new,
            from,
            before,
            settled,
            self.holidays,
            &mut self.rows,
        )?;
        self.held.extend_from_slice(later)?;
        let stage = Stage::Rest {
            first,
            turn: new.turn,
        };
        Ok(self.need(next, last, stage))
    }

    /// Takes the sums of the rest of the year.
    pub fn feed_rest(
        mut self,
        first: Day,
        turn: Option<Day>,
        sums: &[DaySum],
    ) -> Result<Next<'a>, AllocError>
        requires ready { IsReady (repairing self (stage.Rest first turn)) }
        requires rise { SumsRise self.asked.from self.asked.to sums.now }
        requires small { amount_held (repairing self (stage.Rest first turn))
            + sum_by cents_of sums.now
            < AMOUNTS_END }
        ensures { IfOk result (Answers (repairing self.entry (stage.Rest first turn)) sums.now) }
    {
        self.holidays.end_before_2100();
        let line = self.lines[0];
        let asked = self.asked;
        let last = asked.to;
        self.held.extend_from_slice(sums)?;
        let turn = turn_from(turn, first, last, &self.held);
        let new = YearLine { turn, ..line };
        let work = &mut self;
        add_rows(
            work.form,
            &new,
            first,
            last,
            &work.held,
            work.holidays,
            &mut work.rows,
        )?;
        self.after_year(&new)
    }

    /// Takes the sums of a later year. `turned` says whether the year before it has a turn.
    pub fn feed_year(mut self, turned: bool, sums: &[DaySum]) -> Result<Next<'a>, AllocError>
        requires ready { IsReady (repairing self (stage.Year turned)) }
        requires rise { SumsRise self.asked.from self.asked.to sums.now }
        requires small { sum_by cents_of sums.now < AMOUNTS_END }
        ensures { IfOk result (Answers (repairing self.entry (stage.Year turned)) sums.now) }
    {
        self.holidays.end_before_2100();
        let line = self.lines[0];
        let new = add_year(self.form, line, turned, sums, self.holidays, &mut self.rows)?;
        self.after_year(&new)
    }

    /// Goes on from the end of a year whose line differs: to the next year where that opens
    /// otherwise than before, and else it is done.
    fn after_year(mut self, new: &YearLine) -> Result<Next<'a>, AllocError>
        requires ready { IsAtYearEnd self.lines.now self.asked.to new.now.year }
        ensures holds { IfOk result
            (Holds self.entry.form (sum_by cents_of self.entry.held.items)) }
        ensures serves { IfOk result (λ next. (day : ℕ) (holidays : List ℕ) (before after : History)
            → IsSettledYear self.entry.form day holidays before after self.entry new.now
            → Serves self.entry.form day holidays before after self.entry.asked next) }
    {
        self.years.push(*new)?;
        let turned = new.turn.is_some();
        let (_, later) = self.lines.split_at(1);
        self.lines = later;
        if let Some(next) = self.lines.first() {
            if opens(next, turned) != next.opening {
                let year = next.year;
                return Ok(self.need(first_day(year), last_day(year), Stage::Year(turned)));
            }
        }
        Ok(Next::Done(self.patch()))
    }

    /// The repair asks for a further window.
    fn need(mut self, from: Day, to: Day, stage: Stage) -> Next<'a>
        requires ready { IsReady (asking (repairing self stage) from to) }
        ensures { result ≡ Next.Need (asking (repairing self.entry stage) from to)
            (record { from = from; to = to }) }
    {
        self.asked = Window { from, to };
        let settled = self;
        Next::Need(Repair { stage, settled }, Window { from, to })
    }

    /// What replaces the obligations from the first window to the last one.
    fn patch(self) -> Patch
        ensures from { result.from ≡ self.entry.from }
        ensures to { result.to ≡ self.entry.asked.to }
        ensures rows { result.rows ≡ self.entry.rows.items }
        ensures years { result.years ≡ self.entry.years.items }
    {
        let Progress {
            form: _,
            lines: _,
            holidays: _,
            from,
            asked,
            rows,
            years,
            held: _,
        } = self;
        Patch {
            from,
            to: asked.to,
            rows: Obligations::from_vec(rows),
            years: YearLines::from_vec(years),
        }
    }
}

/// How a year opens. `turned` says whether the year before it has a turn.
pub fn opens(line: &YearLine, turned: bool) -> Kind
    ensures { result ≡ kind.Semiweekly ↔ OpensBy (IsTrue turned) line.now }
{
    opening(line.lookback, line.carried || turned)
}
