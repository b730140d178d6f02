//! The links from the page of an account to its lists and forms.

ghost use Rattle.ftd_days.specs.Calendar.{quarter_of};
ghost use Rattle.ftd_ports.specs.Writing.{Writes};
ghost use Rattle.ftd_site.specs.Accounts.{account_nav, account_ways, list_address, list_line};
ghost use Rattle.ftd_site.specs.Accounts.{account_links, list_lines, list_link, quarter_address};
ghost use Rattle.ftd_pages.specs.Links.{link};
ghost use Rattle.ftd_site.specs.declared.accounts.AccountList.TheVariants.{Due};

use crate::form_lists::write_account_forms;
use ftd_answers::{RowFormat, Value, write_rows};
use ftd_days::Day;
use ftd_pages::{Ways, write_link};
use ftd_ports::{Target, WriteFault, write_all};
use ftd_rules::Form;

/// A list of an account.
#[derive(Clone, Copy, Debug)]
pub enum AccountList {
    /// The open years.
    Years,
    /// The reported totals.
    Reported,
    /// What is due for the quarter of today, as of today.
    Due,
    /// The liability of the quarter by day.
    ScheduleB,
    /// The pay runs of the quarter.
    Runs,
    /// The payments for days of the quarter.
    Payments,
}

/// The lists that the page of an account links that files Form 941.
const LISTS_941: [AccountList; 6] = [
    AccountList::Years,
    AccountList::Reported,
    AccountList::Due,
    AccountList::ScheduleB,
    AccountList::Runs,
    AccountList::Payments,
];

/// The lists that the page of an account links that files Form 943, which has no Schedule B.
const LISTS_943: [AccountList; 5] = [
    AccountList::Years,
    AccountList::Reported,
    AccountList::Due,
    AccountList::Runs,
    AccountList::Payments,
];

/// Links to lists of an account.
#[derive(Clone, Copy, Debug)]
struct ListLinks<'a> {
    /// The account.
    account: &'a str,
    /// The day as of which the page tells.
    today: Day,
}

impl<'a> ListLinks<'a> {
    /// Writes a link to a list that has no quarter.
    fn write_to_list<W: Target>(
        &self,
        path: &'static str,
        word: &'static str,
        target: &mut W,
    ) -> Result<(), WriteFault>
        ensures { Writes result (W.taken target.old) (W.taken target.new) (W.failed target.new)
            (link (list_address self.now.account.now path.now) word.now) }
    {
        let address = [
            Value::Text("/lists/accounts/"),
            Value::Text(self.account),
            Value::Text(path),
        ];
        write_link(&address, &Value::Text(word), target)
    }

    /// Writes a link to a list of the quarter of today.
    fn write_to_quarter<W: Target>(
        &self,
        start: &'static str,
        path: &'static str,
        word: &'static str,
        target: &mut W,
    ) -> Result<(), WriteFault>
        ensures { Writes result (W.taken target.old) (W.taken target.new) (W.failed target.new)
            (link (quarter_address start.now self.now.account.now path.now
            (quarter_of self.now.today)) word.now) }
    {
        let address = [
            Value::Text(start),
            Value::Text(self.account),
            Value::Text(path),
            Value::Quarter(self.today.quarter()),
            Value::Text("/html"),
        ];
        write_link(&address, &Value::Text(word), target)
    }

    /// Writes a link to the due list of the quarter of today, as of today.
    fn write_to_due<W: Target>(&self, target: &mut W) -> Result<(), WriteFault>
        ensures { Writes result (W.taken target.old) (W.taken target.new) (W.failed target.new)
            (list_link self.now.account.now self.now.today Due) }
    {
        let address = [
            Value::Text("/accounts/"),
            Value::Text(self.account),
            Value::Text("/due/"),
            Value::Quarter(self.today.quarter()),
            Value::Text("/"),
            Value::Day(self.today),
            Value::Text("/html"),
        ];
        write_link(&address, &Value::Text("Due list"), target)
    }

    /// Writes a link to a list.
    fn write_to<W: Target>(&self, list: AccountList, target: &mut W) -> Result<(), WriteFault>
        ensures { Writes result (W.taken target.old) (W.taken target.new) (W.failed target.new)
            (list_link self.now.account.now self.now.today list) }
    {
        match list {
            AccountList::Years => self.write_to_list("/years/html", "Open years", target),
            AccountList::Reported => {
                self.write_to_list("/reported/html", "Reported totals", target)
            }
            AccountList::Due => self.write_to_due(target),
            AccountList::ScheduleB => {
                self.write_to_quarter(
                    "/accounts/",
                    "/schedule-b/",
                    "Schedule B (Form 941)",
                    target,
                )
            }
            AccountList::Runs => {
                self.write_to_quarter("/lists/accounts/", "/runs/", "Pay runs", target)
            }
            AccountList::Payments => {
                self.write_to_quarter("/lists/accounts/", "/payments/", "Payments", target)
            }
        }
    }
}

impl<'a> RowFormat<AccountList> for ListLinks<'a> {
    ghost row_text = { λ links list. list_line links.account.now links.today list };

    fn write_row<W: Target>(&self, row: &AccountList, target: &mut W) -> Result<(), WriteFault> {
        self.write_to(*row, target)?;
        write_all(target, b"\n")
    }
}

/// Writes the links to the lists of an account that files this form, a line each.
fn write_list_lines<W: Target>(
    links: &ListLinks<'_>,
    form: Form,
    target: &mut W,
) -> Result<(), WriteFault>
    ensures { Writes result (W.taken target.old) (W.taken target.new)
        (W.failed target.new) (list_lines links.now.account.now links.now.today form) }
{
    match form {
        Form::F941 => write_rows(links, &LISTS_941, target),
        Form::F943 => write_rows(links, &LISTS_943, target),
    }
}

/// Writes the links to the lists of an account that files this form.
fn write_account_nav<W: Target>(
    account: &str,
    form: Form,
    today: Day,
    target: &mut W,
) -> Result<(), WriteFault>
    ensures { Writes result (W.taken target.old) (W.taken target.new)
        (W.failed target.new) (account_nav account.now form today) }
{
    write_all(target, b"<nav aria-label=\"Account\">\n")?;
    write_list_lines(&ListLinks { account, today }, form, target)?;
    write_all(target, b"</nav>\n")
}

/// Writes the links to the lists of an account that files this form, and to the forms that name it.
fn write_account_links<W: Target>(
    account: &str,
    form: Form,
    today: Day,
    target: &mut W,
) -> Result<(), WriteFault>
    ensures { Writes result (W.taken target.old) (W.taken target.new)
        (W.failed target.new) (account_links account.now form today) }
{
    write_account_nav(account, form, today, target)?;
    write_account_forms(account, form, target)
}

/// Writes the links to the lists of an account that files this form, and to its forms, if the page
/// has ways.
pub fn write_account_ways<W: Target>(
    ways: Ways,
    account: &str,
    form: Form,
    target: &mut W,
) -> Result<(), WriteFault>
    ensures { Writes result (W.taken target.old) (W.taken target.new)
        (W.failed target.new) (account_ways ways account.now form) }
{
    match ways {
        Ways::Nowhere => Ok(()),
        Ways::From { today, .. } => write_account_links(account, form, today, target),
    }
}
