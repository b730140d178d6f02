//! Whether the desk's tables are as requests made them, as it is printed.

ghost use Rattle.ftd_ports.specs.Writing.{Writes};
ghost use Rattle.ftd_program.specs.Checking.{Checks, PrintsSoundness, PrintsUnsound, sound_text};
ghost use Rattle.ftd_program.specs.Checking.{unsound_hint, unsound_text};
ghost use Rattle.ftd_program.specs.Performing.{PrintsOut};
ghost use Rattle.ftd_replies.specs.Putting.{IsPut};

use crate::performing::{JobEnd, fail_output, print_refusal};
use ftd_desk::{Desk, Part, Sizes, Soundness};
use ftd_machine::{KeptList, Question, Request};
use ftd_ports::{Target, WriteFault, write_all, write_pieces};
use ftd_replies::{HintFacts, put};
use itoa::Buffer;
use sqlite::Alter;

/// What is said below what shows that tables are unsound.
const UNSOUND_HINT: &[u8] =
    b"hint: something other than ftd changed the file: go back to a copy of it, or make a new file of a journal that you kept\n";

/// Writes that tables are sound, and how many rows they have.
fn write_sound<W: Target>(sizes: &Sizes, target: &mut W) -> Result<(), WriteFault>
    ensures { Writes result (W.taken target.old) (W.taken target.new)
        (W.failed target.new) (sound_text sizes.now) }
{
    let (mut account_digits, mut year_digits) = (Buffer::new(), Buffer::new());
    let (mut run_digits, mut payment_digits) = (Buffer::new(), Buffer::new());
    let mut obligation_digits = Buffer::new();
    let accounts = account_digits.format(sizes.forms).as_bytes();
    let years = year_digits.format(sizes.years).as_bytes();
    let runs = run_digits.format(sizes.runs).as_bytes();
    let payments = payment_digits.format(sizes.payments).as_bytes();
    let obligations = obligation_digits.format(sizes.obligations).as_bytes();
    write_pieces(
        target,
        &[
            b"sound accounts ",
            accounts,
            b" years ",
            years,
            b" runs ",
            runs,
            b" payments ",
            payments,
            b" obligations ",
            obligations,
            b"\n",
        ],
    )
}

/// Writes the part that shows that tables are unsound.
fn write_unsound<W: Target>(part: &Part, target: &mut W) -> Result<(), WriteFault>
    ensures { Writes result (W.taken target.old) (W.taken target.new)
        (W.failed target.new) (unsound_text part.now) }
{
    match part {
        Part::Holidays => write_all(target, b"unsound holidays\n"),
        Part::Accounts => write_all(target, b"unsound accounts\n"),
        Part::Account(name) => {
            write_pieces(
                target,
                &[b"unsound account ", name.as_str().as_bytes(), b"\n"],
            )
        }
        Part::Rows => write_all(target, b"unsound rows\n"),
    }
}

/// Puts what is said below that.
fn put_hint<E: Target>(err: &mut E)
    ensures { IsPut (E.taken err.old) (E.taken err.new) (E.failed err.new) unsound_hint }
{
    put(UNSOUND_HINT, err);
}

/// Prints that the tables are sound, and how many rows they have.
fn print_sound<O: Target, E: Target>(sizes: &Sizes, out: O, err: E) -> JobEnd<O, E>
    ensures { PrintsOut O.taken O.failed E.taken E.failed out err result 0 (sound_text sizes.now) }
{
    let mut out = out;
    match write_sound(sizes, &mut out) {
        Ok(()) => JobEnd {
            status: 0,
            out,
            err,
        },
        Err(_) => fail_output(out, err),
    }
}

/// Prints the part that shows that the tables are unsound. The status is 1.
fn print_unsound<O: Target, E: Target>(part: &Part, out: O, err: E) -> JobEnd<O, E>
    ensures { PrintsUnsound O.taken O.failed E.taken E.failed out err result part.now }
{
    let (mut out, mut err) = (out, err);
    match write_unsound(part, &mut out) {
        Ok(()) => {
            put_hint(&mut err);
            JobEnd {
                status: 1,
                out,
                err,
            }
        }
        Err(_) => fail_output(out, err),
    }
}

/// Prints whether the tables are sound.
fn print_soundness<O: Target, E: Target>(found: &Soundness, out: O, err: E) -> JobEnd<O, E>
    ensures { PrintsSoundness O.taken O.failed E.taken E.failed out err result found.now }
{
    match found {
        Soundness::Sound(sizes) => print_sound(sizes, out, err),
        Soundness::Unsound(part) => print_unsound(part, out, err),
    }
}

/// Prints whether the desk's tables are as requests made them, and how many rows they have then, or
/// the first part that shows that they are not. The desk stands as before.
pub(crate) fn check<S: Alter, O: Target, E: Target>(
    desk: &mut Desk<S>,
    db: &str,
    out: O,
    err: E,
) -> JobEnd<O, E>
    ensures { Checks S.Store O.taken O.failed E.taken E.failed out err result
        desk.old desk.new db.now }
{
    match desk.check() {
        Ok(found) => print_soundness(&found, out, err),
        Err(refusal) => {
            let request = Request::Question(Question::Kept(KeptList::Accounts));
            print_refusal(db, &request, &refusal, &HintFacts::Nothing, out, err)
        }
    }
}
