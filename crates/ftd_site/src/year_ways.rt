//! The links to the due lists of an account's open years.

ghost use Rattle.ftd_ports.specs.Writing.{Writes};
ghost use Rattle.ftd_site.specs.YearWays.{due_way, due_ways, kept_ways, told_ways, year_ways};
ghost use Rattle.ftd_site.specs.YearWays.{ways_below};

use ftd_answers::{RowFormat, Value, write_plain, write_rows};
use ftd_days::Day;
use ftd_machine::{Facts, KeptRows, KeptYear};
use ftd_pages::{Ways, write_link};
use ftd_ports::{Target, WriteFault, write_all};

/// Open years: the links to the due lists of the quarters of each.
#[derive(Clone, Copy, Debug)]
struct YearLinks<'a> {
    /// The account.
    account: &'a str,
    /// The day as of which the lists tell.
    today: Day,
}

impl<'a> YearLinks<'a> {
    /// Writes the link to the due list of a quarter: what its path has behind the year, and its
    /// months.
    #[tactic(auto, using(ftd_ports::proofs::WritingFacts::written_in_parts), unfolding(crate::specs::YearWays::due_way))]
    fn write_way<W: Target>(
        &self,
        year: u32,
        quarter: &'static str,
        months: &'static str,
        target: &mut W,
    ) -> Result<(), WriteFault>
        ensures { Writes result (W.taken target.old) (W.taken target.new) (W.failed target.new)
            (due_way self.now.account.now self.now.today year quarter.now months.now) }
    {
        let address = [
            Value::Text("/accounts/"),
            Value::Text(self.account),
            Value::Text("/due/"),
            Value::Number(year),
            Value::Text(quarter),
            Value::Day(self.today),
            Value::Text("/html"),
        ];
        write_link(&address, &Value::Text(months), target)?;
        write_all(target, b"\n")
    }

    /// Writes the links to the due lists of the quarters of a year.
    #[tactic(auto, using(ftd_ports::proofs::WritingFacts::written_in_parts), unfolding(crate::specs::YearWays::due_ways))]
    fn write_ways<W: Target>(&self, year: u32, target: &mut W) -> Result<(), WriteFault>
        ensures { Writes result (W.taken target.old) (W.taken target.new) (W.failed target.new)
            (due_ways self.now.account.now self.now.today year) }
    {
        self.write_way(year, "Q1/", "January to March", target)?;
        self.write_way(year, "Q2/", "April to June", target)?;
        self.write_way(year, "Q3/", "July to September", target)?;
        self.write_way(year, "Q4/", "October to December", target)
    }

    /// Writes the paragraph of a year.
    #[tactic(auto, using(ftd_ports::proofs::WritingFacts::written_in_parts), unfolding(crate::specs::YearWays::year_ways))]
    fn write_year<W: Target>(&self, year: u32, target: &mut W) -> Result<(), WriteFault>
        ensures { Writes result (W.taken target.old) (W.taken target.new) (W.failed target.new)
            (year_ways self.now.account.now self.now.today year) }
    {
        write_all(target, b"<p>Due lists of ")?;
        write_plain(&Value::Number(year), target)?;
        write_all(target, b":\n")?;
        self.write_ways(year, target)?;
        write_all(target, b"</p>\n")
    }
}

impl<'a> RowFormat<KeptYear> for YearLinks<'a> {
    ghost row_text = { λ links row. year_ways links.account.now links.today row.line.year };

    fn write_row<W: Target>(&self, row: &KeptYear, target: &mut W) -> Result<(), WriteFault> {
        self.write_year(row.line.year, target)
    }
}

/// Writes the links to the due lists of the years that are kept open, as of today.
fn write_kept_ways<W: Target>(today: Day, rows: &KeptRows, target: &mut W) -> Result<(), WriteFault>
    ensures { Writes result (W.taken target.old) (W.taken target.new)
        (W.failed target.new) (kept_ways today rows.now) }
{
    match rows {
        KeptRows::Years { account, rows } => {
            let links = YearLinks {
                account: account.as_str(),
                today,
            };
            write_rows(&links, rows.as_slice(), target)
        }
        _ => Ok(()),
    }
}

/// Writes the links below what is told: those to the due lists of open years, as of today.
fn write_told_ways<W: Target>(today: Day, facts: &Facts, target: &mut W) -> Result<(), WriteFault>
    ensures { Writes result (W.taken target.old) (W.taken target.new)
        (W.failed target.new) (told_ways today facts.now) }
{
    match facts {
        Facts::Kept(rows) => write_kept_ways(today, rows, target),
        _ => Ok(()),
    }
}

/// Writes the links below what is told, if the page has ways.
pub(crate) fn write_ways_below<W: Target>(
    ways: Ways,
    facts: &Facts,
    target: &mut W,
) -> Result<(), WriteFault>
    ensures { Writes result (W.taken target.old) (W.taken target.new)
        (W.failed target.new) (ways_below ways facts.now) }
{
    match ways {
        Ways::Nowhere => Ok(()),
        Ways::From { today, .. } => write_told_ways(today, facts, target),
    }
}
