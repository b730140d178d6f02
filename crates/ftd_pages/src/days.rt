//! Schedule B.

ghost use Rattle.ftd_ports.specs.Writing.{Writes};
ghost use Rattle.ftd_rules.specs.Liability.{cents_of};
ghost use Rattle.ftd_pages.specs.Days.{day_shape, days_at};

use crate::columns::{ACCOUNT, AMOUNT, DAY};
use crate::feet::Foot;
use crate::frames::Place;
use crate::pages::Page;
use crate::rows::{Class, PageRow, Part, write_fields};
use crate::sections::write_list_at;
use ftd_answers::{RowAmount, Value, total};
use ftd_days::Cents;
use ftd_machine::LiabilityByDay;
use ftd_ports::{Target, WriteFault};
use ftd_rules::DaySum;

/// The liability of a day.
#[derive(Drop)]
struct Liability;

impl RowAmount<DaySum> for Liability {
    ghost counted = { λ counts sum. cents_of sum };

    fn cents(&self, row: &DaySum) -> Cents {
        row.cents
    }
}

impl PageRow for DaySum {
    ghost shape = { day_shape };

    fn write_part<W: Target>(
        &self,
        account: &str,
        part: Part,
        target: &mut W,
    ) -> Result<(), WriteFault> {
        let fields = [
            (ACCOUNT, Value::Text(account)),
            (DAY, Value::Day(self.day)),
            (AMOUNT, Value::Amount(self.cents)),
        ];
        write_fields(part, Class::Plain, &fields, target)
    }
}

/// Writes Schedule B of an account's quarter at its place: the days that have liability, and their
/// sum. It takes no memory but what the target takes. Where the target fails, a prefix of that was
/// written, and it fails nowhere else.
pub fn write_days<W: Target>(
    place: &Place,
    list: &LiabilityByDay,
    target: &mut W,
) -> Result<(), WriteFault>
    ensures { Writes result (W.taken target.old) (W.taken target.new)
        (W.failed target.new) (days_at place.now list.now) }
{
    let account = list.account.as_str();
    let sums = list.sums.as_slice();
    let page = Page {
        title: &[
            Value::Text("Schedule B of "),
            Value::Text(account),
            Value::Text(", "),
            Value::Quarter(list.quarter),
        ],
        sentence: "The quarter has no liability.",
        account,
        foot: Foot::Days(total(&Liability, sums)),
    };
    write_list_at(place, &page, sums, target)
}
