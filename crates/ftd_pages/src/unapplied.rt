//! Money that counts for nothing.

ghost use Rattle.std.specs.Prelude.{◌≡◌};
ghost use Rattle.ftd_ports.specs.Writing.{Writes};
ghost use Rattle.ftd_answers.specs.Unapplied.{over_of};
ghost use Rattle.ftd_pages.specs.Unapplied.{unapplied_at, unapplied_shape};

use crate::columns::{ACCOUNT, AMOUNT, FIRST, LAST, OVER, PAID, PAYMENT};
use crate::feet::Foot;
use crate::frames::Place;
use crate::links::Way::Nowhere;
use crate::links::to_account;
use crate::pages::Page;
use crate::rows::{Class, PageRow, Part, write_linked_fields};
use crate::sections::write_list_at;
use ftd_answers::Value;
use ftd_days::Cents;
use ftd_machine::{UnappliedList, UnappliedRow};
use ftd_ports::{Target, WriteFault};

/// What counts for nothing of a row: the payment, or what is paid beyond the amount of the
/// obligation.
fn over_of(row: &UnappliedRow) -> Cents
    ensures { result.0 ≡ over_of row.now }
{
    Cents(row.paid.0.saturating_sub(row.amount.0))
}

impl PageRow for UnappliedRow {
    ghost shape = { λ account. unapplied_shape };

    fn write_part<W: Target>(
        &self,
        account: &str,
        part: Part,
        target: &mut W,
    ) -> Result<(), WriteFault> {
        let name = self.account.as_str();
        let fields = [
            (ACCOUNT, Value::Text(name), to_account(name)),
            (PAYMENT, Value::NumberOrNone(self.payment), Nowhere),
            (FIRST, Value::Day(self.first), Nowhere),
            (LAST, Value::Day(self.last), Nowhere),
            (AMOUNT, Value::Amount(self.amount), Nowhere),
            (PAID, Value::Amount(self.paid), Nowhere),
            (OVER, Value::Amount(over_of(self)), Nowhere),
        ];
        write_linked_fields(part, Class::Plain, &fields, target)
    }
}

/// Writes money that counts for nothing, of the days up to one, at its place. It takes no memory
/// but what the target takes. Where the target fails, a prefix of that was written, and it fails
/// nowhere else.
pub fn write_unapplied<W: Target>(
    place: &Place,
    unapplied: &UnappliedList,
    target: &mut W,
) -> Result<(), WriteFault>
    ensures { Writes result (W.taken target.old) (W.taken target.new)
        (W.failed target.new) (unapplied_at place.now unapplied.now) }
{
    let rows = unapplied.rows.as_slice();
    let page = Page {
        title: &[
            Value::Text("Money that counts for nothing until "),
            Value::Day(unapplied.until),
        ],
        sentence: "All money counts for a deposit.",
        account: "",
        foot: Foot::Nothing,
    };
    write_list_at(place, &page, rows, target)
}
