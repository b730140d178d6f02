//! Which years of an account are open.

ghost use Rattle.std.specs.Prelude.{◌≡◌};
ghost use Rattle.std.specs.List.{list_any};
ghost use Rattle.ftd_store.specs.Frame.{Reads};
ghost use Rattle.ftd_entries.specs.Known.{KnowsYear};
ghost use Rattle.ftd_entries.specs.Opening.{is_line_of};

use ftd_rules::YearLine;
use ftd_store::{StoreFault, Tx};
use sqlite::Alter;
use std::alloc::Global;

/// Whether the year of the account is open.
pub fn is_open<S: Alter>(
    tx: &mut Tx<'_, S>,
    alloc: Global,
    name: &str,
    year: u32,
) -> Result<bool, StoreFault>
    ensures call { Reads S.Store tx.old tx.new result (KnowsYear name.now year) }
{
    let lines = tx.years(alloc, name)?;
    Ok(has_year(&lines, year))
}

/// Whether one of the lines is of the year.
pub fn has_year(lines: &[YearLine], year: u32) -> bool
    ensures { result ≡ list_any (is_line_of year) lines.now }
{
    lines.iter().any(|line| line.year == year)
}
