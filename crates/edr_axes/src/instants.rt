//! Times as text.
ghost use Rattle.std.specs.Prelude.{◌≡◌, ◌+◌, ◌/◌, ◌%◌, ◌<◌, ◌≤◌, ◌≤ℤ◌, pos};
ghost use Rattle.edr_axes.specs.Instants.{IsTime, civil_shown, civil_text, instant_text, TimesAreWritten, TextsTellTimes};

use jiff_core::civil::{Date, DateTime};

fn tens(n: u16) -> u8
    requires { n < 100 }
    ensures { result ≡ 48 + n / 10 }
{
    b'0' + (n / 10) as u8
}

fn ones(n: u16) -> u8
    requires { n < 100 }
    ensures { result ≡ 48 + n % 10 }
{
    b'0' + (n % 10) as u8
}

// The year of a date that isn't before the year 0.
fn year_of(date: Date) -> u16
    requires { pos 0 ≤ℤ date.year }
    ensures { pos result ≡ date.year }
{
    date.year as u16
}

// The text of what a calendar and a clock show, beside the year.
fn text_of(year: u16, shown: DateTime) -> [u8; 20]
    requires { year ≤ 9999 }
    ensures { result ≡ civil_text (civil_shown year shown) }
{
    [
        tens(year / 100),
        ones(year / 100),
        tens(year % 100),
        ones(year % 100),
        b'-',
        tens(shown.date.month as u16),
        ones(shown.date.month as u16),
        b'-',
        tens(shown.date.day as u16),
        ones(shown.date.day as u16),
        b'T',
        tens(shown.time.hour as u16),
        ones(shown.time.hour as u16),
        b':',
        tens(shown.time.minute as u16),
        ones(shown.time.minute as u16),
        b':',
        tens(shown.time.second as u16),
        ones(shown.time.second as u16),
        b'Z',
    ]
}

/// The text of a time of the years 0000 to 9999, `YYYY-MM-DDTHH:MM:SSZ` (RFC 3339, section 5.6).
///
/// The time is in seconds since 1970-01-01T00:00:00Z.
pub fn write_instant(time: i64) -> [u8; 20]
    requires { IsTime time }
    ensures { result ≡ instant_text time }
{
    let shown = DateTime::from_nanosecond_in_range(time as i128 * 1_000_000_000);
    text_of(year_of(shown.date), shown)
}

/// Each time's text is the written form of a date that the calendar has and a time of day.
pub fn times_are_written()
    ensures { TimesAreWritten }
{}

/// Times with one text are equal.
pub fn texts_tell_times()
    ensures { TextsTellTimes }
{}
