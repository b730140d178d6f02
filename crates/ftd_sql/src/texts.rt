//! The texts of the statements: each is written here and nowhere else. Values are given in the
//! order of the columns unless a text says otherwise. A day is its number of days since 1970-01-01,
//! an amount is in cents.

// ---- ftd_meta: whose database it is

/// The rows of `ftd_meta`.
pub const LIST_METAS: &str = "SELECT tag, version FROM ftd_meta";
/// Adds a tag with its version.
pub const ADD_META: &str = "INSERT INTO ftd_meta (tag, version) VALUES (?1, ?2)";
/// Gives a tag (?1) another version (?2).
pub const SET_VERSION: &str = "UPDATE ftd_meta SET version = ?2 WHERE tag = ?1";

// ---- account and account_form

/// The first day of the account of a name, and whether it was carried over.
pub const READ_ACCOUNT: &str = "SELECT start, carried FROM account WHERE name = ?1";
/// The names of all accounts.
pub const LIST_ACCOUNTS: &str = "SELECT name FROM account";
/// All accounts, by name.
pub const LIST_ENROLLED: &str = "SELECT name, start, carried FROM account ORDER BY name";
/// Adds an account.
pub const ADD_ACCOUNT: &str = "INSERT INTO account (name, start, carried) VALUES (?1, ?2, ?3)";
/// All accounts in the order in which they were added.
pub const LIST_ACCOUNTS_BY_ROW: &str = "SELECT name, start, carried FROM account ORDER BY rowid";
/// The form of an account.
pub const READ_FORM: &str = "SELECT form FROM account_form WHERE account = ?1";
/// The forms of all accounts, by account.
pub const LIST_FORMS: &str = "SELECT account, form FROM account_form ORDER BY account";
/// Adds the form of an account.
pub const ADD_FORM: &str = "INSERT INTO account_form (account, form) VALUES (?1, ?2)";
/// The forms of an account in the order in which they were added.
pub const LIST_FORMS_BY_ROW: &str =
    "SELECT form FROM account_form WHERE account = ?1 ORDER BY rowid";
/// How many forms all accounts have.
pub const COUNT_ALL_FORMS: &str = "SELECT COUNT(*) FROM account_form";

// ---- reported and reported_year

/// The total that an account reported for a quarter.
pub const READ_REPORTED: &str =
    "SELECT cents FROM reported WHERE account = ?1 AND cal_year = ?2 AND quarter = ?3";
/// The totals that an account reported for quarters, by quarter.
pub const LIST_REPORTED: &str =
    "SELECT cal_year, quarter, cents FROM reported WHERE account = ?1 ORDER BY cal_year, quarter";
/// Adds the total of a quarter.
pub const ADD_REPORTED: &str =
    "INSERT INTO reported (account, cal_year, quarter, cents) VALUES (?1, ?2, ?3, ?4)";
/// The totals that an account reported for quarters in the order in which they were added.
pub const LIST_REPORTED_BY_ROW: &str =
    "SELECT cal_year, quarter, cents FROM reported WHERE account = ?1 ORDER BY rowid";
/// How many totals all accounts reported for quarters.
pub const COUNT_ALL_REPORTED: &str = "SELECT COUNT(*) FROM reported";
/// The total that an account reported for a year.
pub const READ_REPORTED_YEAR: &str =
    "SELECT cents FROM reported_year WHERE account = ?1 AND cal_year = ?2";
/// The totals that an account reported for years, by year.
pub const LIST_REPORTED_YEARS: &str =
    "SELECT cal_year, cents FROM reported_year WHERE account = ?1 ORDER BY cal_year";
/// Adds the total of a year.
pub const ADD_REPORTED_YEAR: &str =
    "INSERT INTO reported_year (account, cal_year, cents) VALUES (?1, ?2, ?3)";
/// The totals that an account reported for years in the order in which they were added.
pub const LIST_REPORTED_YEARS_BY_ROW: &str =
    "SELECT cal_year, cents FROM reported_year WHERE account = ?1 ORDER BY rowid";
/// How many totals all accounts reported for years.
pub const COUNT_ALL_REPORTED_YEARS: &str = "SELECT COUNT(*) FROM reported_year";

// ---- corrected, corrected_year and corrected_account: what was put right, by number

/// The corrections of the total that an account reported for a quarter, by number.
pub const LIST_CORRECTIONS: &str =
    "SELECT number, cents FROM corrected WHERE account = ?1 AND cal_year = ?2 AND quarter = ?3 \
     ORDER BY number";
/// Adds a correction of the total of a quarter.
pub const ADD_CORRECTED: &str =
    "INSERT INTO corrected (account, cal_year, quarter, number, cents) VALUES (?1, ?2, ?3, ?4, ?5)";
/// The corrections of the totals that an account reported for quarters, in the order in which they
/// were added.
pub const LIST_CORRECTIONS_BY_ROW: &str =
    "SELECT cal_year, quarter, number, cents FROM corrected WHERE account = ?1 ORDER BY rowid";
/// How many corrections there are of the totals that all accounts reported for quarters.
pub const COUNT_ALL_CORRECTIONS: &str = "SELECT COUNT(*) FROM corrected";
/// The corrections of the total that an account reported for a year, by number.
pub const LIST_YEAR_CORRECTIONS: &str =
    "SELECT number, cents FROM corrected_year WHERE account = ?1 AND cal_year = ?2 ORDER BY number";
/// Adds a correction of the total of a year.
pub const ADD_CORRECTED_YEAR: &str =
    "INSERT INTO corrected_year (account, cal_year, number, cents) VALUES (?1, ?2, ?3, ?4)";
/// The corrections of the totals that an account reported for years, in the order in which they
/// were added.
pub const LIST_YEAR_CORRECTIONS_BY_ROW: &str =
    "SELECT cal_year, number, cents FROM corrected_year WHERE account = ?1 ORDER BY rowid";
/// How many corrections there are of the totals that all accounts reported for years.
pub const COUNT_ALL_YEAR_CORRECTIONS: &str = "SELECT COUNT(*) FROM corrected_year";
/// The corrections of an account's first day, and of whether it was carried over, by number.
pub const LIST_ACCOUNT_CORRECTIONS: &str =
    "SELECT number, start, carried FROM corrected_account WHERE account = ?1 ORDER BY number";
/// Adds a correction of an account.
pub const ADD_CORRECTED_ACCOUNT: &str =
    "INSERT INTO corrected_account (account, number, start, carried) VALUES (?1, ?2, ?3, ?4)";
/// The corrections of an account in the order in which they were added.
pub const LIST_ACCOUNT_CORRECTIONS_BY_ROW: &str =
    "SELECT number, start, carried FROM corrected_account WHERE account = ?1 ORDER BY rowid";
/// How many corrections all accounts have.
pub const COUNT_ALL_ACCOUNT_CORRECTIONS: &str = "SELECT COUNT(*) FROM corrected_account";

// ---- calendar_year, holiday, added_holiday and changed_holiday

/// The year, where its calendar is given.
pub const READ_CALENDAR_YEAR: &str = "SELECT cal_year FROM calendar_year WHERE cal_year = ?1";
/// Adds a year whose calendar is given.
pub const ADD_CALENDAR_YEAR: &str = "INSERT INTO calendar_year (cal_year) VALUES (?1)";
/// All years whose calendar is given, in the order in which they were added.
pub const LIST_CALENDAR_YEARS_BY_ROW: &str = "SELECT cal_year FROM calendar_year ORDER BY rowid";
/// The holidays first given for a year, by day.
pub const LIST_HOLIDAYS: &str = "SELECT day FROM holiday WHERE cal_year = ?1 ORDER BY day";
/// Adds a holiday that is given with its year.
pub const ADD_HOLIDAY: &str = "INSERT INTO holiday (day, cal_year) VALUES (?1, ?2)";
/// All holidays that were given with their years, in the order in which they were added.
pub const LIST_HOLIDAYS_BY_ROW: &str = "SELECT day, cal_year FROM holiday ORDER BY rowid";
/// The holidays added to a given year, by day.
pub const LIST_ADDED_HOLIDAYS: &str =
    "SELECT day FROM added_holiday WHERE cal_year = ?1 ORDER BY day";
/// Adds a holiday to a given year.
pub const ADD_ADDED_HOLIDAY: &str = "INSERT INTO added_holiday (day, cal_year) VALUES (?1, ?2)";
/// All holidays that were added to given years, in the order in which they were added.
pub const LIST_ADDED_HOLIDAYS_BY_ROW: &str =
    "SELECT day, cal_year FROM added_holiday ORDER BY rowid";
/// The changes of the days of a given year, by day and number.
pub const LIST_CHANGED_HOLIDAYS: &str =
    "SELECT day, number, is_holiday FROM changed_holiday WHERE cal_year = ?1 ORDER BY day, number";
/// Adds a change of a day: that it is taken back as a holiday, or made one again.
pub const ADD_CHANGED_HOLIDAY: &str =
    "INSERT INTO changed_holiday (day, number, is_holiday, cal_year) VALUES (?1, ?2, ?3, ?4)";
/// All changes of days of given years, in the order in which they were added.
pub const LIST_CHANGED_HOLIDAYS_BY_ROW: &str =
    "SELECT day, number, is_holiday, cal_year FROM changed_holiday ORDER BY rowid";

// ---- year

/// The open years of an account, by year.
pub const LIST_YEARS: &str =
    "SELECT cal_year, lookback, opening, turn FROM year WHERE account = ?1 ORDER BY cal_year";
/// Adds an open year.
pub const ADD_YEAR: &str =
    "INSERT INTO year (account, cal_year, lookback, opening, turn) VALUES (?1, ?2, ?3, ?4, ?5)";
/// The open years of an account in the order in which they were added.
pub const LIST_YEARS_BY_ROW: &str =
    "SELECT cal_year, lookback, opening, turn FROM year WHERE account = ?1 ORDER BY rowid";
/// How many open years all accounts have.
pub const COUNT_ALL_YEARS: &str = "SELECT COUNT(*) FROM year";
/// Gives an open year of an account its figures anew, given as its row is.
pub const SET_YEAR: &str =
    "UPDATE year SET lookback = ?3, opening = ?4, turn = ?5 WHERE account = ?1 AND cal_year = ?2";

// ---- run

/// The run of an account and a number, void or not.
pub const READ_RUN: &str =
    "SELECT payday, fit, ss, medicare, voided FROM run WHERE account = ?1 AND run = ?2";
/// Adds a run.
pub const ADD_RUN: &str = "INSERT INTO run (account, run, payday, fit, ss, medicare, voided) \
     VALUES (?1, ?2, ?3, ?4, ?5, ?6, ?7)";
/// Marks the run of an account and a number as void.
pub const VOID_RUN: &str = "UPDATE run SET voided = 1 WHERE account = ?1 AND run = ?2";
/// How many runs an account has, void ones too.
pub const COUNT_RUNS: &str = "SELECT COUNT(*) FROM run WHERE account = ?1";
/// The live runs of an account with a payday between two days, by payday and number.
pub const LIST_RUNS: &str = "SELECT payday, fit, ss, medicare FROM run \
     WHERE account = ?1 AND payday >= ?2 AND payday <= ?3 AND voided = 0 ORDER BY payday, run";
/// The runs of an account with a payday between two days, void ones too, by payday and number.
pub const LIST_KEPT_RUNS: &str = "SELECT run, payday, fit, ss, medicare, voided FROM run \
     WHERE account = ?1 AND payday >= ?2 AND payday <= ?3 ORDER BY payday, run";
/// The runs of an account, void ones too, in the order in which they were added.
pub const LIST_RUNS_BY_ROW: &str =
    "SELECT run, payday, fit, ss, medicare, voided FROM run WHERE account = ?1 ORDER BY rowid";
/// How many runs all accounts have, void ones too.
pub const COUNT_ALL_RUNS: &str = "SELECT COUNT(*) FROM run";

// ---- payment

/// The payment of an account and a number, void or not.
pub const READ_PAYMENT: &str =
    "SELECT paid, for_day, cents, voided FROM payment WHERE account = ?1 AND payment = ?2";
/// Adds a payment.
pub const ADD_PAYMENT: &str =
    "INSERT INTO payment (account, payment, paid, for_day, cents, voided) \
     VALUES (?1, ?2, ?3, ?4, ?5, ?6)";
/// Marks the payment of an account and a number as void.
pub const VOID_PAYMENT: &str = "UPDATE payment SET voided = 1 WHERE account = ?1 AND payment = ?2";
/// How many payments an account has, void ones too.
pub const COUNT_PAYMENTS: &str = "SELECT COUNT(*) FROM payment WHERE account = ?1";
/// The live payments of an account for days between two, by that day and number.
pub const LIST_PAYMENTS: &str = "SELECT for_day, paid, cents FROM payment \
     WHERE account = ?1 AND for_day >= ?2 AND for_day <= ?3 AND voided = 0 \
     ORDER BY for_day, payment";
/// The payments of an account for days between two, void ones too, by that day and number.
pub const LIST_KEPT_PAYMENTS: &str = "SELECT payment, paid, for_day, cents, voided FROM payment \
     WHERE account = ?1 AND for_day >= ?2 AND for_day <= ?3 ORDER BY for_day, payment";
/// The payments of an account, void ones too, in the order in which they were added.
pub const LIST_PAYMENTS_BY_ROW: &str =
    "SELECT payment, paid, for_day, cents, voided FROM payment WHERE account = ?1 ORDER BY rowid";
/// How many payments all accounts have, void ones too.
pub const COUNT_ALL_PAYMENTS: &str = "SELECT COUNT(*) FROM payment";

// ---- bucket: the obligations

/// The obligations of an account with a first day between two days, by first day.
pub const LIST_OBLIGATIONS: &str = "SELECT first_day, last_day, rule, cents, due FROM bucket \
     WHERE account = ?1 AND first_day >= ?2 AND first_day <= ?3 ORDER BY first_day";
/// Adds an obligation.
pub const ADD_OBLIGATION: &str =
    "INSERT INTO bucket (account, first_day, last_day, rule, cents, due) \
     VALUES (?1, ?2, ?3, ?4, ?5, ?6)";
/// Takes out the obligations of an account with a first day between two days.
pub const REMOVE_OBLIGATIONS: &str =
    "DELETE FROM bucket WHERE account = ?1 AND first_day >= ?2 AND first_day <= ?3";
/// The obligations of all accounts that begin before a day and are due on it or later, by account
/// and first day.
pub const LIST_DUE_OVER: &str = "SELECT account, first_day, last_day, rule, cents, due FROM bucket \
     WHERE first_day < ?1 AND due >= ?1 ORDER BY account, first_day";
/// The obligations of all accounts that are due between two days, by account and first day.
pub const LIST_DUE_BETWEEN: &str =
    "SELECT account, first_day, last_day, rule, cents, due FROM bucket \
     WHERE due >= ?1 AND due <= ?2 ORDER BY account, first_day";
/// The obligations of an account in the order in which they were added.
pub const LIST_OBLIGATIONS_BY_ROW: &str =
    "SELECT first_day, last_day, rule, cents, due FROM bucket WHERE account = ?1 ORDER BY rowid";
/// How many obligations all accounts have.
pub const COUNT_ALL_OBLIGATIONS: &str = "SELECT COUNT(*) FROM bucket";
/// Gives the obligation of an account and a first day its other cells anew, given as its row is.
pub const SET_OBLIGATION: &str = "UPDATE bucket SET last_day = ?3, rule = ?4, cents = ?5, due = ?6 \
     WHERE account = ?1 AND first_day = ?2";
/// Gives the obligation of an account (?1) and a first day (?2) another due date (?3).
pub const SET_DUE: &str = "UPDATE bucket SET due = ?3 WHERE account = ?1 AND first_day = ?2";

// ---- making the tables

/// Makes `ftd_meta`.
pub const CREATE_METAS: &str =
    "CREATE TABLE ftd_meta (tag TEXT NOT NULL PRIMARY KEY, version INTEGER NOT NULL) STRICT";
/// Makes `account`.
pub const CREATE_ACCOUNTS: &str =
    "CREATE TABLE account (name TEXT NOT NULL PRIMARY KEY, start INTEGER NOT NULL, \
     carried INTEGER NOT NULL) STRICT";
/// Makes `reported`.
pub const CREATE_REPORTED_QUARTERS: &str =
    "CREATE TABLE reported (account TEXT NOT NULL REFERENCES account(name), \
     cal_year INTEGER NOT NULL, quarter INTEGER NOT NULL, cents INTEGER NOT NULL, \
     PRIMARY KEY (account, cal_year, quarter)) STRICT";
/// Makes `calendar_year`.
pub const CREATE_CALENDAR_YEARS: &str =
    "CREATE TABLE calendar_year (cal_year INT NOT NULL PRIMARY KEY) STRICT";
/// Makes `holiday`.
pub const CREATE_HOLIDAYS: &str = "CREATE TABLE holiday (day INT NOT NULL PRIMARY KEY, \
     cal_year INTEGER NOT NULL REFERENCES calendar_year(cal_year)) STRICT";
/// Makes `year`.
pub const CREATE_YEARS: &str = "CREATE TABLE year (account TEXT NOT NULL REFERENCES account(name), \
     cal_year INTEGER NOT NULL, lookback INTEGER NOT NULL, opening INTEGER NOT NULL, \
     turn INTEGER, PRIMARY KEY (account, cal_year)) STRICT";
/// Makes `run`.
pub const CREATE_RUNS: &str =
    "CREATE TABLE run (account TEXT NOT NULL REFERENCES account(name), run INTEGER NOT NULL, \
     payday INTEGER NOT NULL, fit INTEGER NOT NULL, ss INTEGER NOT NULL, \
     medicare INTEGER NOT NULL, voided INTEGER NOT NULL, PRIMARY KEY (account, run)) STRICT";
/// Makes `payment`.
pub const CREATE_PAYMENTS: &str =
    "CREATE TABLE payment (account TEXT NOT NULL REFERENCES account(name), \
     payment INTEGER NOT NULL, paid INTEGER NOT NULL, for_day INTEGER NOT NULL, \
     cents INTEGER NOT NULL, voided INTEGER NOT NULL, PRIMARY KEY (account, payment)) STRICT";
/// Makes `bucket`.
pub const CREATE_OBLIGATIONS: &str =
    "CREATE TABLE bucket (account TEXT NOT NULL REFERENCES account(name), \
     first_day INTEGER NOT NULL, last_day INTEGER NOT NULL, rule INTEGER NOT NULL, \
     cents INTEGER NOT NULL, due INTEGER NOT NULL, PRIMARY KEY (account, first_day)) STRICT";
/// Makes `account_form`.
pub const CREATE_FORMS: &str =
    "CREATE TABLE account_form (account TEXT NOT NULL PRIMARY KEY REFERENCES account(name), \
     form INTEGER NOT NULL) STRICT";
/// Makes `reported_year`.
pub const CREATE_REPORTED_YEARS: &str =
    "CREATE TABLE reported_year (account TEXT NOT NULL REFERENCES account(name), \
     cal_year INTEGER NOT NULL, cents INTEGER NOT NULL, PRIMARY KEY (account, cal_year)) STRICT";
/// Makes `added_holiday`.
pub const CREATE_ADDED_HOLIDAYS: &str = "CREATE TABLE added_holiday (day INT NOT NULL PRIMARY KEY, \
     cal_year INTEGER NOT NULL REFERENCES calendar_year(cal_year)) STRICT";
/// Makes `corrected`.
pub const CREATE_CORRECTED_QUARTERS: &str =
    "CREATE TABLE corrected (account TEXT NOT NULL REFERENCES account(name), \
     cal_year INTEGER NOT NULL, quarter INTEGER NOT NULL, number INTEGER NOT NULL, \
     cents INTEGER NOT NULL, PRIMARY KEY (account, cal_year, quarter, number)) STRICT";
/// Makes `corrected_year`.
pub const CREATE_CORRECTED_YEARS: &str =
    "CREATE TABLE corrected_year (account TEXT NOT NULL REFERENCES account(name), \
     cal_year INTEGER NOT NULL, number INTEGER NOT NULL, cents INTEGER NOT NULL, \
     PRIMARY KEY (account, cal_year, number)) STRICT";
/// Makes `changed_holiday`.
pub const CREATE_CHANGED_HOLIDAYS: &str =
    "CREATE TABLE changed_holiday (day INTEGER NOT NULL, number INTEGER NOT NULL, \
     is_holiday INTEGER NOT NULL, \
     cal_year INTEGER NOT NULL REFERENCES calendar_year(cal_year), \
     PRIMARY KEY (day, number)) STRICT";
/// Makes `corrected_account`.
pub const CREATE_CORRECTED_ACCOUNTS: &str =
    "CREATE TABLE corrected_account (account TEXT NOT NULL REFERENCES account(name), \
     number INTEGER NOT NULL, start INTEGER NOT NULL, carried INTEGER NOT NULL, \
     PRIMARY KEY (account, number)) STRICT";

// ---- the indexes by day

/// Makes the index by which the runs of a few days are found.
pub const INDEX_RUNS: &str = "CREATE INDEX ftd_run_by_payday ON run (account, payday, run)";
/// Makes the index by which the payments for a few days are found.
pub const INDEX_PAYMENTS: &str =
    "CREATE INDEX ftd_payment_by_day ON payment (account, for_day, payment)";
