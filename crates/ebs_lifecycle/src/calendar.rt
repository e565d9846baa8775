// Months of the calendar in UTC.
ghost use Rattle.std.specs.Prelude.{◌≡◌, ◌≤◌, ◌/◌, ◌^◌, pos};
ghost use Rattle.jiff_core.specs.Date.{epoch_day};
ghost use Rattle.ebs_model.specs.Retention.{months_after};

use ebs_model::Moment;
use jiff::ToSpan;
use jiff::civil::{Date, date};

const DAY: u64 = 86400;

/// The same time of day so many months later, on the same day of the month or on the month's last.
pub fn months_after(start: Moment, months: u32) -> Moment
    requires start { start.second ≤ 2 ^ 36 }
    requires months { months ≤ 1200 }
    ensures { result.second ≡ months_after start.second months }
{
    let span = i64::from(months).months();
    let later = date_of(start).checked_add(span).unwrap();
    let days = later.to_plain().to_unix_epoch_day() as u64;
    Moment {
        second: DAY * days + start.second % DAY,
    }
}

/// Its date in UTC.
fn date_of(moment: Moment) -> Date
    requires { moment.second ≤ 2 ^ 36 }
    ensures { epoch_day result ≡ pos (moment.second / 86400) }
{
    let days = (moment.second / DAY) as i64;
    date(1970, 1, 1).checked_add(days.days()).unwrap()
}
