//! What a repair holds between two windows.

use crate::{Patch, Window};
use ftd_days::{Day, Holidays};
use ftd_rules::{DaySum, Form, Obligation, YearLine};
use std::marker::Model;

/// Which window is asked for.
#[derive(Drop)]
pub enum Stage {
    /// The deposit period of the changed day.
    Period,
    /// The rest of its year, whose turn differs.
    Rest {
        /// The first day of the deposit period that goes on into the rest.
        first: Day,
        /// The turn, if it has come.
        turn: Option<Day>,
    },
    /// A later year, and whether the year before it has a turn.
    Year(bool),
}

/// What is settled so far.
#[derive(Drop)]
pub struct Progress<'a> {
    pub(crate) form: Form,
    /// The lines before the change, from the year that is being read on.
    pub(crate) lines: &'a [YearLine],
    pub(crate) holidays: &'a Holidays,
    /// The first day of the first window.
    pub(crate) from: Day,
    /// The window that is asked for.
    pub(crate) asked: Window,
    /// The obligations of the days before those held, and the lines that differ.
    pub(crate) rows: Vec<Obligation>,
    pub(crate) years: Vec<YearLine>,
    /// The sums of the days that were fed and are not settled.
    pub(crate) held: Vec<DaySum>,
}

/// A repair of an account's obligations, which asks for one window of day sums after the other.
#[derive(Drop)]
pub struct Repair<'a> {
    pub(crate) settled: Progress<'a>,
    pub(crate) stage: Stage,
}

impl<'a> Model for Repair<'a> {
    ghost use Rattle.ftd_buckets.specs.Ready.{Repairing, IsReady, repairing};

    ghost Value = { Repairing };

    ghost view = { λ a. repairing a.settled a.stage };

    ghost invariant = { λ a. IsReady (repairing a.settled a.stage) };
}

/// What a repair answers.
#[derive(Drop)]
pub enum Next<'a> {
    /// What has changed.
    Done(Patch),
    /// The repair wants the day sums of a further window.
    Need(Repair<'a>, Window),
}
