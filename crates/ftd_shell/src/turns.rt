//! The lines of a script that are listed: answered together, or one after the other.

ghost use Rattle.std.specs.Prelude.{◌≡◌, ◌∷◌, ℕ, All, IfOk, List, flat_map, map};
ghost use Rattle.ftd_machine.specs.Laws.{IsBounded};
ghost use Rattle.ftd_desk.specs.Unrefused.{IsReply};
ghost use Rattle.ftd_shell.specs.Listed.{Asked, Entered, HasItsNote, TellsEach, TellsEntered};
ghost use Rattle.ftd_shell.specs.Listed.{TellsNext, answers_of, asked_of, broken_of};
ghost use Rattle.ftd_shell.specs.Shells.{ways_of};
ghost use Rattle.ftd_shell.specs.ListedLines.{AnswersListed, EndsListed, IsOf};
ghost use Rattle.ftd_shell.specs.Understanding.{AreListed, Holds, IsListed};

use crate::listed::{Listed, ListedLine};
use crate::shell::{Inputs, Shell, Unread, end_unread};
use crate::told::{Told, first_told, tell_answer};
use ftd_cli::DayClock;
use ftd_desk::AllOrNone;
use ftd_machine::{Answer, Refusal, Request};
use ftd_ports::{Port, Target};
use ftd_program::{JobEnd, fail_output};
use ftd_script::{greater, is_last};
use sqlite::Alter;

impl<S: Alter, F: Inputs + DayClock> Shell<S, F> {
    /// Tells what the desk answered for a line.
    fn tell_line<O: Target, E: Target>(
        &self,
        line: &ListedLine,
        told: &Told<'_, '_>,
        out: O,
        err: E,
    ) -> JobEnd<O, E>
        requires bounded { IfOk told.now.answer.now IsBounded }
        ensures { (number : ℕ) → (entered : Entered)
            → IsListed (ways_of self.now) number line.now entered.asked → IsOf told.now entered
            → TellsEntered O.taken O.failed E.taken E.failed out err result (ways_of self.now)
            number entered }
    {
        let (mut out, mut err) = (out, err);
        let Ok(()) = self.show_command(&line.shown, &mut out) else {
            return fail_output(out, err);
        };
        let said = Port::new(Vec::new(self.alloc));
        let end = tell_answer(&self.db, line.format, told, out, said);
        self.put_said(line.number, &line.shown, &end.err.into_inner(), &mut err);
        JobEnd {
            status: end.status,
            out: end.out,
            err,
        }
    }

    /// Tells what the desk answered for a line, after these answers.
    fn tell_next<O: Target, E: Target>(
        &self,
        line: &ListedLine,
        told: &Told<'_, '_>,
        before: JobEnd<O, E>,
    ) -> JobEnd<O, E>
        requires bounded { IfOk told.now.answer.now IsBounded }
        ensures { (number : ℕ) → (entered : Entered)
            → IsListed (ways_of self.now) number line.now entered.asked → IsOf told.now entered
            → TellsNext O.taken O.failed E.taken E.failed before result (ways_of self.now)
            number entered }
    {
        let JobEnd { status, out, err } = before;
        let end = self.tell_line(line, told, out, err);
        JobEnd {
            status: greater(status, end.status),
            out: end.out,
            err: end.err,
        }
    }

    /// Tells what the desk answered for lines, one after the other. No line is told after one at
    /// which standard output failed.
    fn tell_each<O: Target, E: Target>(
        &self,
        lines: &[ListedLine],
        requests: &[Request],
        answers: &[Answer],
        before: JobEnd<O, E>,
    ) -> JobEnd<O, E>
        requires replies { All IsReply answers.now }
        ensures { (number : ℕ) → (entered : List Entered)
            → AreListed (ways_of self.now) number lines.now (map (λ it. it.asked) entered)
            → All HasItsNote entered → requests.now ≡ flat_map asked_of entered
            → answers.now ≡ flat_map answers_of entered
            → TellsEach O.taken O.failed E.taken E.failed before result (ways_of self.now)
            number entered }
    {
        let mut end = before;
        let (mut asked, mut given) = (requests, answers);
        for line in lines {
            let Some(first) = first_told(asked, given, line.has_note) else {
                return end;
            };
            end = self.tell_next(line, &first.told, end);
            if end.status == 3 {
                return end;
            }
            asked = first.requests;
            given = first.answers;
        }
        end
    }

    /// Tells the first of the lines that the store has failed, as the commit did of what they ask.
    fn tell_broken<O: Target, E: Target>(
        &self,
        listed: &Listed,
        before: JobEnd<O, E>,
    ) -> JobEnd<O, E>
        ensures { (number : ℕ) → (asked : Asked) → (later : List Asked)
            → Holds (ways_of self.now) number listed.now (asked ∷ later)
            → TellsNext O.taken O.failed E.taken E.failed before result (ways_of self.now) number
            (broken_of asked) }
    {
        let Some(line) = listed.lines.first() else {
            return before;
        };
        let Some(request) = listed.requests.first() else {
            return before;
        };
        let answer: Answer = Err(Refusal::Store);
        let told = Told {
            request,
            answer: &answer,
            note: None,
        };
        self.tell_next(line, &told, before)
    }

    /// Answers the lines one after the other, each alone.
    fn answer_each<O: Target, E: Target>(
        &mut self,
        has_stop: bool,
        listed: &Listed,
        before: JobEnd<O, E>,
    ) -> JobEnd<O, E>
        ensures answers { AnswersListed S.Store O.taken O.failed E.taken E.failed has_stop before
            result self.old.desk self.new.desk (ways_of self.old) listed.now }
        ensures stays { ways_of self.new ≡ ways_of self.old }
    {
        let mut end = before;
        for line in &listed.lines {
            let understood = self.understand(&line.piece);
            end = self.answer_next(line.number, understood, end);
            if is_last(has_stop, end.status) {
                return end;
            }
        }
        end
    }

    /// Answers the lines that are listed, after these answers: together, if none of what they ask
    /// is refused and there is no fault, else one after the other. No line is answered after one
    /// that is the last. Where standard output fails at a line that was answered together with
    /// others, what these ask is done too, and they are not told. Where the commit of what they ask
    /// fails, the first of them is told so, and the desk is stopped.
    pub(crate) fn answer_listed<O: Target, E: Target>(
        &mut self,
        has_stop: bool,
        listed: &Listed,
        before: JobEnd<O, E>,
    ) -> JobEnd<O, E>
        ensures answers { AnswersListed S.Store O.taken O.failed E.taken E.failed has_stop before
            result self.old.desk self.new.desk (ways_of self.old) listed.now }
        ensures stays { ways_of self.new ≡ ways_of self.old }
    {
        if listed.lines.len() < 2 {
            return self.answer_each(has_stop, listed, before);
        }
        match self.desk.all_or_none(&listed.requests) {
            AllOrNone::Kept(answers) => {
                self.tell_each(&listed.lines, &listed.requests, &answers, before)
            }
            AllOrNone::Stopped => self.tell_broken(listed, before),
            AllOrNone::Dropped => self.answer_each(has_stop, listed, before),
        }
    }

    /// Answers the lines that are listed, after these answers, and says then why the script can't
    /// be read further, unless one of them is the last.
    pub(crate) fn end_unread<O: Target, E: Target>(
        &mut self,
        has_stop: bool,
        listed: &Listed,
        unread: &Unread,
        before: JobEnd<O, E>,
    ) -> JobEnd<O, E>
        ensures ends { EndsListed S.Store O.taken O.failed E.taken E.failed has_stop before
            result self.old.desk self.new.desk (ways_of self.old) listed.now
            unread.now.status unread.now.said.items }
        ensures stays { ways_of self.new ≡ ways_of self.old }
    {
        let end = self.answer_listed(has_stop, listed, before);
        if is_last(has_stop, end.status) {
            end
        } else {
            end_unread(unread, end)
        }
    }
}
