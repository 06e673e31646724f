// The converter between minutes and dates, for 2000 to 2099: two conversions, each of a few sums and quotients.
#![tactic(auto)]

ghost use Rattle.std.specs.Prelude.{◌+◌, ◌-◌, ◌≤◌, ◌<◌, ◌≡◌, get_or};
ghost use Rattle.calendar.specs.Gregorian.{leap, february_days, months, days_of_first, whole_in};
ghost use Rattle.calendar.specs.Converter.{years, exists};
ghost use Rattle.calendar.specs.Reply.{date_is};

use refusals::Refusal;

/// Five numbers that may be a date of the Gregorian calendar and a time, in UTC. Months and days count from 1.
#[derive(Clone, Copy, Debug, PartialEq, Eq)]
pub struct Date {
    pub year: u32,
    pub month: u32,
    pub day: u32,
    pub hour: u32,
    pub minute: u32,
}

/// The minutes that have passed since 2000-01-01 00:00 UTC.
#[derive(Clone, Copy, Debug, PartialEq, Eq, PartialOrd, Ord)]
pub struct Minute(pub u32);

const FIRST_YEAR: u32 = 2000;

const LAST_YEAR: u32 = 2099;

// A day's hours and minutes, and an hour's minutes.
const HOURS: u32 = 24;

const DAY: u32 = 1440;

const HOUR: u32 = 60;

// The minutes of the hundred years.
const END: u32 = 52596000;

#[tactic(auto, using(std::proofs::lemmas::Bool::Decides::nat_tests), unfolding(crate::specs::Gregorian::leap))]
fn is_leap(year: u32) -> bool
    ensures { result ≡ leap year }
{
    year % 4 == 0 && (year % 100 != 0 || year % 400 == 0)
}

// The days of the first n years: each has 365, and every fourth, from the first on, one more.
#[tactic(auto, using(crate::proofs::ClosedForms::years_closed))]
fn days_of_years(n: u32) -> u32
    requires { n ≤ 99 }
    ensures { result ≡ days_of_first n years }
{
    (n * 1461 + 3) / 4
}

// How many years pass whole in so many days of the hundred years: four years have 1461.
#[tactic(auto, using(crate::proofs::ClosedForms::years_whole))]
fn years_in(days: u32) -> u32
    requires { days < 36525 }
    ensures { result ≡ whole_in days years }
{
    days * 4 / 1461
}

// The days of February.
fn february(year: u32) -> u32
    ensures { result ≡ february_days (leap year) }
{
    if is_leap(year) { 29 } else { 28 }
}

// The days of the first n months. Had February 30 days, the twelve would have 367, spread evenly.
#[tactic(auto, using(crate::proofs::ClosedForms::months_first, crate::proofs::ClosedForms::months_later))]
fn days_of_months(year: u32, n: u32) -> u32
    requires { n ≤ 12 }
    ensures { result ≡ days_of_first n (months (leap year)) }
{
    let even = (n * 367 + 5) / 12;
    if n < 2 {
        even
    } else {
        even + february(year) - 30
    }
}

// How many months pass whole in so many days of a year.
fn months_in(year: u32, days: u32) -> u32
    requires { days < days_of_first 12 (months (leap year)) }
    ensures { result ≡ whole_in days (months (leap year)) }
{
    let second = february(year);
    if days < 31 + second {
        days / 31
    } else {
        ((days + 30 - second) * 12 + 6) / 367
    }
}

// The days of one month.
#[tactic(auto, using(crate::proofs::ClosedForms::month_more))]
fn month_days(year: u32, month: u32) -> u32
    requires { (1 ≤ month) × (month ≤ 12) }
    ensures { result ≡ get_or (months (leap year)) (month - 1) 0 }
{
    days_of_months(year, month) - days_of_months(year, month - 1)
}

impl Date {
    // The five numbers are a date on the calendar, in 2000 to 2099.
    #[tactic(auto, using(std::proofs::lemmas::Bool::Decides::nat_tests), unfolding(crate::specs::Converter::exists))]
    fn exists(self) -> bool
        ensures { result ≡ exists (date_is self) }
    {
        let Date {
            year: FIRST_YEAR..=LAST_YEAR,
            month: 1..=12,
            day,
            hour: ..HOURS,
            minute: ..HOUR,
        } = self
        else {
            return false;
        };
        1 <= day && day <= month_days(self.year, self.month)
    }
}

/// A date that is not on the calendar, or not in 2000 to 2099, is refused as `Refusal::BadDate`.
impl TryFrom<Date> for Minute {
    type Error = Refusal;

    ghost use Rattle.calendar.specs.Converter.{minutes_reply};
    ghost use Rattle.calendar.specs.Reply.{date_is, minute_is};

    ghost try_from_gives = { λ date r. minute_is r ≡ minutes_reply (date_is date) };

    fn try_from(date: Date) -> Result<Minute, Refusal> {
        if !date.exists() {
            return Err(Refusal::BadDate);
        }
        let years = days_of_years(date.year - FIRST_YEAR);
        let months = days_of_months(date.year, date.month - 1);
        let days = years + months + (date.day - 1);
        Ok(Minute(days * DAY + date.hour * HOUR + date.minute))
    }
}

/// A minute after 2099 is refused as `Refusal::BadDate`.
impl TryFrom<Minute> for Date {
    type Error = Refusal;

    ghost use Rattle.calendar.specs.Converter.{date_reply};
    ghost use Rattle.calendar.specs.Reply.{dated_is};

    ghost try_from_gives = { λ minute r. dated_is r ≡ date_reply minute.0 };

    fn try_from(minute: Minute) -> Result<Date, Refusal> {
        let Minute(minutes) = minute;
        if END <= minutes {
            return Err(Refusal::BadDate);
        }
        let days = minutes / DAY;
        let passed = years_in(days);
        let year = FIRST_YEAR + passed;
        let left = days - days_of_years(passed);
        let over = months_in(year, left);
        let day = left - days_of_months(year, over) + 1;
        Ok(Date {
            year,
            month: over + 1,
            day,
            hour: minutes % DAY / HOUR,
            minute: minutes % HOUR,
        })
    }
}
