ghost use Rattle.std.specs.Prelude.{◌≡◌, ◌<◌, ◌≤◌, ◌↔◌, IfOk, IsErrOf};
ghost use Rattle.stock_nums.specs.Calendar.{IsCalendarDate};

/// A second of the civil calendar, with no time zone.
#[derive(Clone, Copy, Debug, PartialEq, Eq, PartialOrd, Ord)]
pub struct Moment {
    /// The eight digits YYYYMMDD as a number, from the year 0001 to the year 9999.
    pub date: u32,
    /// The second of the day, from 0 to 86,399.
    pub second: u32,
    ghost exists: { IsCalendarDate date },
    ghost within_day: { second < 86400 },
}
