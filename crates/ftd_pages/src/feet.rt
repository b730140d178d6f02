//! The feet of tables: the sums below the rows.

ghost use Rattle.ftd_ports.specs.Writing.{Writes};
ghost use Rattle.ftd_pages.specs.Pages.{day_sum, due_sums, foot_of, foot_text, left_sum};

use crate::columns::{AMOUNT, LEFT};
use crate::links::Way;
use crate::rows::write_cell;
use ftd_answers::Value;
use ftd_ports::{Target, WriteFault, write_all};

/// The sums below the rows of a table, in cents.
#[derive(Clone, Copy, Debug)]
pub enum Foot {
    /// There are none.
    Nothing,
    /// Of what is left to pay of obligations of all accounts.
    Left(u128),
    /// Of the amounts of an account's obligations, and of what is left to pay of them.
    Due(u128, u128),
    /// Of the liability of an account's days.
    Days(u128),
}

/// Writes the cells with what is left to pay of obligations of all accounts.
fn write_left_sum<W: Target>(left: u128, target: &mut W) -> Result<(), WriteFault>
    ensures { Writes result (W.taken target.old) (W.taken target.new)
        (W.failed target.new) (left_sum left) }
{
    write_all(target, b"<th scope=\"row\" colspan=\"8\">Left to pay</th>")?;
    write_cell(&LEFT, &Value::Sum(left), &Way::Nowhere, target)?;
    write_all(target, b"<td colspan=\"2\"></td>")
}

/// Writes the cells with the sums of an account's obligations.
fn write_due_sums<W: Target>(amount: u128, left: u128, target: &mut W) -> Result<(), WriteFault>
    ensures { Writes result (W.taken target.old) (W.taken target.new)
        (W.failed target.new) (due_sums amount left) }
{
    write_all(target, b"<th scope=\"row\" colspan=\"5\">Total</th>")?;
    write_cell(&AMOUNT, &Value::Sum(amount), &Way::Nowhere, target)?;
    write_all(target, b"<td></td>")?;
    write_cell(&LEFT, &Value::Sum(left), &Way::Nowhere, target)?;
    write_all(target, b"<td colspan=\"2\"></td>")
}

/// Writes the cells with the sum of an account's days.
fn write_day_sum<W: Target>(amount: u128, target: &mut W) -> Result<(), WriteFault>
    ensures { Writes result (W.taken target.old) (W.taken target.new)
        (W.failed target.new) (day_sum amount) }
{
    write_all(target, b"<th scope=\"row\" colspan=\"2\">Total</th>")?;
    write_cell(&AMOUNT, &Value::Sum(amount), &Way::Nowhere, target)
}

/// Writes a foot with what is left to pay of obligations of all accounts.
fn write_left_foot<W: Target>(left: u128, target: &mut W) -> Result<(), WriteFault>
    ensures { Writes result (W.taken target.old) (W.taken target.new)
        (W.failed target.new) (foot_of (left_sum left)) }
{
    write_all(target, b"<tfoot>\n<tr>")?;
    write_left_sum(left, target)?;
    write_all(target, b"</tr>\n</tfoot>\n")
}

/// Writes a foot with the sums of an account's obligations.
fn write_due_foot<W: Target>(amount: u128, left: u128, target: &mut W) -> Result<(), WriteFault>
    ensures { Writes result (W.taken target.old) (W.taken target.new)
        (W.failed target.new) (foot_of (due_sums amount left)) }
{
    write_all(target, b"<tfoot>\n<tr>")?;
    write_due_sums(amount, left, target)?;
    write_all(target, b"</tr>\n</tfoot>\n")
}

/// Writes a foot with the sum of an account's days.
fn write_day_foot<W: Target>(amount: u128, target: &mut W) -> Result<(), WriteFault>
    ensures { Writes result (W.taken target.old) (W.taken target.new)
        (W.failed target.new) (foot_of (day_sum amount)) }
{
    write_all(target, b"<tfoot>\n<tr>")?;
    write_day_sum(amount, target)?;
    write_all(target, b"</tr>\n</tfoot>\n")
}

/// Writes a foot, if there is one.
pub fn write_foot<W: Target>(foot: Foot, target: &mut W) -> Result<(), WriteFault>
    ensures { Writes result (W.taken target.old) (W.taken target.new)
        (W.failed target.new) (foot_text foot) }
{
    match foot {
        Foot::Nothing => Ok(()),
        Foot::Left(left) => write_left_foot(left, target),
        Foot::Due(amount, left) => write_due_foot(amount, left, target),
        Foot::Days(amount) => write_day_foot(amount, target),
    }
}
