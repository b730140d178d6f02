//! Open years.

ghost use Rattle.std.specs.Prelude.{◌↔◌, IsTrue};
ghost use Rattle.ftd_rules.specs.Lists.{Has};
ghost use Rattle.ftd_machine.specs.Sound.{Follow};
ghost use Rattle.ftd_sound.specs.Private.Plain.{AreYears, IsYear};

use crate::limits::can_be_opened;
use ftd_machine::Account;

/// Whether the years may be open, but for their lookback totals: they follow one another, each is
/// one of 2001 to 2098 and not before the employer's first day, and its calendar and that of the
/// next year are given.
pub(crate) fn are_years(given: &[u32], account: Account, years: &[u32]) -> bool
    ensures { IsTrue result ↔ AreYears given.now account years.now }
{
    follow(years) && years.iter().all(|year| is_year(given, account, *year))
}

/// Whether each year is the one after the year before it.
fn follow(years: &[u32]) -> bool
    ensures { IsTrue result ↔ Follow years.now }
{
    years.is_sorted_by(|year, next| year < next && *next - *year == 1)
}

/// Whether the year may be open, but for its lookback total.
fn is_year(given: &[u32], account: Account, year: u32) -> bool
    ensures { IsTrue result ↔ IsYear given.now account year }
{
    can_be_opened(year)
        && is_one_of(given, year)
        && is_one_of(given, year + 1)
        && account.start.year() <= year
}

/// Whether the year is one of these.
pub(crate) fn is_one_of(years: &[u32], year: u32) -> bool
    ensures { IsTrue result ↔ Has years.now year }
{
    years.contains(&year)
}
