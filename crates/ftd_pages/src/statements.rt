//! The rules in words, each with its source.

ghost use Rattle.std.specs.Prelude.{◌≡◌};
ghost use Rattle.ftd_ports.specs.Writing.{Writes};
ghost use Rattle.ftd_pages.specs.Statements.{lookback_stated, reason_stated, rule_stated};
ghost use Rattle.ftd_pages.specs.Statements.{stated_in, statement_of};

use crate::escapes::write_escaped;
use ftd_machine::Reason;
use ftd_ports::{Target, WriteFault, write_all};
use ftd_rules::{Kind, Rule};

/// A rule in words.
#[derive(Clone, Copy, Debug)]
pub struct Statement {
    /// What it says.
    pub sentence: &'static str,
    /// Where it is printed.
    pub source: &'static str,
}

/// A monthly deposit.
pub const MONTHLY_RULE: Statement = Statement {
    sentence: "The liability of a calendar month is deposited together, by the 15th of the next \
        month. If the 15th is not a business day, the deposit is due on the next business day.",
    source: "IRS Publication 15, section 11, Monthly Deposit Schedule; 26 CFR 31.6302-1(c)(1).",
};

/// A semiweekly deposit.
pub const SEMIWEEKLY_RULE: Statement = Statement {
    sentence: "The liability of paydays from Wednesday to Friday is deposited together, and so \
        is that of paydays from Saturday to Tuesday. The deposit is due on the third business \
        day after that Friday or Tuesday.",
    source: "IRS Publication 15, section 11, Semiweekly Deposit Schedule; 26 CFR 31.6302-1(c)(2).",
};

/// A next-day deposit.
pub const NEXT_DAY_RULE: Statement = Statement {
    sentence: "If 100,000.00 or more is accumulated on any day within a deposit period, it is \
        due on the next business day.",
    source: "IRS Publication 15, section 11, $100,000 Next-Day Deposit Rule; 26 CFR \
        31.6302-1(c)(3).",
};

/// A monthly depositor by the lookback total.
pub const LOW_LOOKBACK: Statement = Statement {
    sentence: "An employer whose lookback total is 50,000.00 or less is a monthly schedule \
        depositor.",
    source: "IRS Publication 15, section 11, Deposit Schedules; 26 CFR 31.6302-1(b)(2).",
};

/// A semiweekly depositor by the lookback total.
pub const HIGH_LOOKBACK: Statement = Statement {
    sentence: "An employer whose lookback total is more than 50,000.00 is a semiweekly schedule \
        depositor.",
    source: "IRS Publication 15, section 11, Deposit Schedules; 26 CFR 31.6302-1(b)(3).",
};

/// A depositor that turned semiweekly.
pub const TURNED_RULE: Statement = Statement {
    sentence: "A monthly schedule depositor that accumulates 100,000.00 or more on any day \
        becomes a semiweekly schedule depositor on the next day, for at least the rest of that \
        calendar year and for the following one.",
    source: "IRS Publication 15, section 11, $100,000 Next-Day Deposit Rule; 26 CFR \
        31.6302-1(b)(2)(ii).",
};

/// A depositor that was semiweekly when it was enrolled.
pub const CARRIED_RULE: Statement = Statement {
    sentence: "An employer that became a semiweekly schedule depositor in one calendar year \
        stays one in the following year. The account was enrolled as one.",
    source: "IRS Publication 15, section 11, $100,000 Next-Day Deposit Rule; 26 CFR \
        31.6302-1(b)(2)(ii).",
};

/// When a liability arises.
pub const PAYDAY_RULE: Statement = Statement {
    sentence: "The liability for withheld tax arises on the payday, not on the last day of the \
        pay period.",
    source: "IRS Publication 15, section 11, When To Deposit.",
};

/// What a business day is.
pub const BUSINESS_DAY_RULE: Statement = Statement {
    sentence: "A business day is any day but a Saturday, a Sunday or a legal holiday in the \
        District of Columbia.",
    source: "IRS Publication 15, section 11, Deposits Due on Business Days Only; 26 CFR \
        31.6302-1(c)(4).",
};

/// When a return is due.
pub const RETURN_RULE: Statement = Statement {
    sentence: "A quarterly return is due on the last day of the month after the quarter, an \
        annual one on January 31 of the next year. If that is not a business day, it is due on \
        the next business day.",
    source: "Instructions for Form 941 and for Form 943, When Must You File?",
};

/// The rule of an obligation, in words.
pub fn rule_statement(rule: Rule) -> Statement
    ensures { stated_in result ≡ rule_stated rule }
{
    match rule {
        Rule::Monthly => MONTHLY_RULE,
        Rule::Semiweekly => SEMIWEEKLY_RULE,
        Rule::NextDay => NEXT_DAY_RULE,
    }
}

/// A deposit schedule by the lookback total, in words.
fn lookback_statement(kind: Kind) -> Statement
    ensures { stated_in result ≡ lookback_stated kind }
{
    match kind {
        Kind::Monthly => LOW_LOOKBACK,
        Kind::Semiweekly => HIGH_LOOKBACK,
    }
}

/// Why an account has its deposit schedule, in words.
pub fn reason_statement(kind: Kind, reason: Reason) -> Statement
    ensures { stated_in result ≡ reason_stated kind reason }
{
    match reason {
        Reason::Lookback => lookback_statement(kind),
        Reason::Turned(_) => TURNED_RULE,
        Reason::Carried => CARRIED_RULE,
    }
}

/// Writes a rule in words, with its source.
pub fn write_statement<W: Target>(statement: &Statement, target: &mut W) -> Result<(), WriteFault>
    ensures { Writes result (W.taken target.old) (W.taken target.new)
        (W.failed target.new) (statement_of (stated_in statement.now)) }
{
    write_all(target, b"<p>")?;
    write_escaped(statement.sentence, target)?;
    write_all(target, b" <cite>")?;
    write_escaped(statement.source, target)?;
    write_all(target, b"</cite></p>\n")
}
