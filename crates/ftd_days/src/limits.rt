//! The first and the last day, month, quarter and year that there are.

/// The first year of the calendar. Days, months and quarters are counted from its beginning.
pub const FIRST_CALENDAR_YEAR: u32 = 1900;

/// The last year of the calendar.
pub const LAST_CALENDAR_YEAR: u32 = 2199;

/// How many quarters the calendar has.
pub const QUARTERS: u32 = 1200;

/// How many months the calendar has.
pub const MONTHS: u32 = 3600;

/// How many days 1970-01-01 is after the first day of the calendar, 1 January 1900.
pub const DAYS_TO_1970: i32 = 25_567;

/// 31 December 2199, the last day of the calendar, in days after 1 January 1900.
pub const LAST_DAY: u32 = 109_572;

/// The same day, in days since 1970-01-01.
pub const LAST_NUMBER: i32 = 84_005;

/// The first year that may be opened, and whose holidays may be given.
pub const FIRST_YEAR: u32 = 2001;

/// The last year that may be opened, and whose total may be reported: its deposits, and its return,
/// are due in the next year at the latest.
pub const LAST_OPEN_YEAR: u32 = 2098;

/// The last year whose holidays may be given. Days on which something is paid or asked for lie in
/// it or before.
pub const LAST_YEAR: u32 = 2099;

/// An amount as text has at most nine digits of dollars: it is less than so many cents.
pub const SPELLED_END: u64 = 100_000_000_000;

/// The most holidays of a year, those that were given and those that were added.
pub const MOST_HOLIDAYS: usize = 60;
