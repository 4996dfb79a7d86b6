//! The date of a day.

ghost use Rattle.std.specs.Prelude.{◌≡◌, ◌<◌, ◌≤◌, ◌^◌};
ghost use Rattle.conode_explain_text.specs.Dates.{date_in_year, date_of, day_of_year, year_of_cycle};

/// A date in the Gregorian calendar.
#[derive(Clone, Copy)]
pub(crate) struct Date {
    pub(crate) year: u64,
    /// January is 1.
    pub(crate) month: u64,
    /// The day of the month, from 1 on.
    pub(crate) day: u64,
}

/// The days of 400 years.
const CYCLE: u64 = 146_097;

// the year, 0 to 399, that a day of 400 years is in
#[tactic(auto, unfolding(crate::specs::Dates::year_of_cycle))]
fn year_of_cycle(day: u64) -> u64
    requires { day < 146097 }
    ensures year { result ≡ year_of_cycle day }
    ensures within { result < 1000 }
{
    let leap_days = (day - day / 1460) + day / 36_524;
    leap_days.saturating_sub(day / 146_096) / 365
}

// the day of that year, where 1 March is 0
#[tactic(auto, unfolding(crate::specs::Dates::day_of_year))]
fn day_of_year(day: u64, year: u64) -> u64
    requires day { day < 146097 }
    requires year { year < 1000 }
    ensures day { result ≡ day_of_year day year }
    ensures within { result < 150000 }
{
    (day + year / 100).saturating_sub(365 * year + year / 4)
}

#[tactic(auto, unfolding(crate::specs::Dates::date_in_year))]
fn date_in_year(year: u64, day: u64) -> Date
    requires year { year < 2 ^ 63 }
    requires day { day < 150000 }
    ensures { result ≡ date_in_year year day }
{
    let month = (5 * day + 2) / 153;
    let of_month = (day + 1).saturating_sub((153 * month + 2) / 5);
    if month < 10 {
        Date {
            year,
            month: month + 3,
            day: of_month,
        }
    } else {
        Date {
            year: year + 1,
            month: month - 9,
            day: of_month,
        }
    }
}

/// The date of a day that is counted from 1 January 1970.
#[tactic(auto, unfolding(crate::specs::Dates::date_of))]
pub(crate) fn date_of(day: u64) -> Date
    requires { day < 2 ^ 50 }
    ensures { result ≡ date_of day }
{
    let day = day + 719_468;
    let of_cycle = day % CYCLE;
    let year = year_of_cycle(of_cycle);
    date_in_year(400 * (day / CYCLE) + year, day_of_year(of_cycle, year))
}
