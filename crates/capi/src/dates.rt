// Dates and minutes converted.
ghost use Rattle.std.specs.Prelude.{◌≡◌};
ghost use Rattle.calendar.specs.Converter.{date_of, minutes_reply, date_reply};
ghost use Rattle.capi.specs.Dates.{hand_minutes, hand_date};

use crate::NO_REFUSAL;
use calendar::{Date, Minute};

// The minutes of a date: the refusal's number, 0 for none.
#[unsafe(no_mangle)]
#[tactic(auto, unfolding(crate::specs::Dates::hand_minutes, calendar::specs::Reply::minute_is))]
pub extern "C" fn txb_minutes(
    year: u32,
    month: u32,
    day: u32,
    hour: u32,
    minute: u32,
    minutes: &mut u32,
) -> u32
    ensures { hand_minutes (minutes_reply (date_of year month day hour minute)) ≡ record { number = result; minutes = minutes.new } }
{
    let date = Date {
        year,
        month,
        day,
        hour,
        minute,
    };
    match Minute::try_from(date) {
        Ok(Minute(count)) => {
            *minutes = count;
            NO_REFUSAL
        }
        Err(refusal) => {
            *minutes = 0;
            u32::from(refusal)
        }
    }
}

// The date of a minute: the refusal's number, 0 for none.
#[unsafe(no_mangle)]
#[tactic(auto, unfolding(crate::specs::Dates::hand_date, calendar::specs::Reply::dated_is))]
pub extern "C" fn txb_date(
    minutes: u32,
    year: &mut u32,
    month: &mut u32,
    day: &mut u32,
    hour: &mut u32,
    minute: &mut u32,
) -> u32
    ensures { hand_date (date_reply minutes) ≡ record { number = result; date = date_of year.new month.new day.new hour.new minute.new } }
{
    match Date::try_from(Minute(minutes)) {
        Ok(date) => {
            *year = date.year;
            *month = date.month;
            *day = date.day;
            *hour = date.hour;
            *minute = date.minute;
            NO_REFUSAL
        }
        Err(refusal) => {
            *year = 0;
            *month = 0;
            *day = 0;
            *hour = 0;
            *minute = 0;
            u32::from(refusal)
        }
    }
}
