//! What was paid for a run of days.

ghost use Rattle.std.specs.Prelude.{◌≡◌, ◌<◌};
ghost use Rattle.std.specs.List.{sum_by};
ghost use Rattle.ftd_rules.specs.Payments.{counts_by, paid_by, payment_cents};

use crate::AMOUNTS_END;
use ftd_days::{Cents, Day};

/// A payment of tax for the liability of a day. Only those that are not void count.
#[derive(Clone, Copy, Debug, PartialEq, Eq)]
pub struct Payment {
    /// The day on which it was made.
    pub paid: Day,
    /// The day whose liability it is for.
    pub for_day: Day,
    /// Its amount.
    pub cents: Cents,
}

impl Payment {
    /// What it counts for the days from `first` to `last` by a day: its amount if it is for one of
    /// these days and dated not after the day, and else nothing.
    fn counted(&self, first: Day, last: Day, by: Day) -> Cents
        ensures { result.0 ≡ counts_by first last by self.now }
    {
        if first <= self.for_day && self.for_day <= last && self.paid <= by {
            self.cents
        } else {
            Cents(0)
        }
    }
}

/// What was paid for the days from `first` to `last` by the day `by`, as known on the day `as_of`:
/// the payments for one of these days that are dated not after `by` and not after `as_of`, added
/// up. The payments are those that are not void, together below 6,000,000,000,000,000 cents. With
/// the days of an obligation and its due date or makeup date this is what its verdict asks for, and
/// with the days of a quarter and the due date of its return what a small quarter's does (Pub. 15
/// section 11, "Accuracy of Deposits Rule" and "Payment with return"). Takes no memory.
pub fn paid_by(payments: &[Payment], first: Day, last: Day, as_of: Day, by: Day) -> Cents
    requires { sum_by payment_cents payments.now < AMOUNTS_END }
    ensures { result.0 ≡ paid_by payments.now first last as_of by }
{
    let known_by = by.min(as_of);
    let mut total = 0;
    for payment in payments {
        total += payment.counted(first, last, known_by).0;
    }
    Cents(total)
}
