// The Gregorian calendar in months and days, both counted from January of year 0.
// Dates become days and days become dates; each way asks `months` once, for the days before one month.
#![tactic(auto)]

ghost use Rattle.std.specs.Prelude.{◌≡◌};
ghost use Rattle.months.specs.Months.{leap_year, month_length};
ghost use Rattle.calendar.specs.Days.{day_of_year};
ghost use Rattle.calendar.specs.Dates.{span_of_day, month_day, like_year, date_in_year};

// A month: its number, the days before it, and its own days.
#[derive(Clone, Copy, Debug, PartialEq, Eq)]
pub struct Span {
    pub number: u32,
    pub start: u64,
    pub length: u32,
}

// A month's number, and a day of it counted from 1.
#[derive(Clone, Copy, Debug, PartialEq, Eq)]
pub struct MonthDay {
    pub month: u32,
    pub day: u32,
}

// ---- months

#[tactic(auto, unfolding(months::specs::Months::leap_year))]
fn is_leap(year: u32) -> bool
    ensures { result ≡ leap_year year }
{
    year % 4 == 0 && (year % 100 != 0 || year % 400 == 0)
}

static COMMON: [u32; 12] = [31, 28, 31, 30, 31, 30, 31, 31, 30, 31, 30, 31];

static LEAP: [u32; 12] = [31, 29, 31, 30, 31, 30, 31, 31, 30, 31, 30, 31];

// How many days a month has, by the rule.
#[tactic(auto, using(months::proofs::Rule::length_is))]
pub fn month_length(m: u32) -> u32
    ensures { result ≡ month_length m }
{
    let lengths = if is_leap(m / 12) { &LEAP } else { &COMMON };
    lengths[(m % 12) as usize]
}

// ---- days

// The month that a day falls in. Months begin within three days of where months of mean length would,
// so it is `next` or the month before, whose start is that of `next` less its own length.
#[tactic(auto, using(crate::proofs::Guess::guess_high, crate::proofs::Guess::guessed, crate::proofs::Guess::guessed_next, crate::proofs::Guess::start_before))]
pub fn month_of_day(day: u32) -> Span
    ensures { result ≡ span_of_day day }
{
    let d = day as u64;
    let next = ((d + 3) * 4800 / 146097) as u32;
    let start = months::days_before(next);
    if start <= d {
        return Span {
            number: next,
            start,
            length: month_length(next),
        };
    }
    let number = next - 1;
    let length = month_length(number);
    Span {
        number,
        start: start - length as u64,
        length,
    }
}

// The month and the day of the month of a day.
#[tactic(auto, using(crate::proofs::Days::in_month, months::proofs::Laws::days_next, months::proofs::Laws::length_most))]
fn month_day(day: u32) -> MonthDay
    ensures { result ≡ month_day day }
{
    let span = month_of_day(day);
    MonthDay {
        month: span.number,
        day: (day as u64 - span.start) as u32 + 1,
    }
}

// ---- days of a year

// The year 0 or 1 that has the same months: year 0 is a leap year, year 1 is not.
fn like_year(year: u32) -> u32
    ensures { result ≡ like_year year }
{
    if is_leap(year) { 0 } else { 1 }
}

// Which day of its year the given day of month m is.
#[tactic(auto, using(crate::proofs::Years::like_month))]
pub fn day_of_year(m: u32, day: u32) -> u64
    ensures { result ≡ day_of_year m day }
{
    let year = like_year(m / 12);
    months::days_before(12 * year + m % 12) - (366 * year) as u64 + day as u64
}

// The month and the day that a day of a year has, each counted from 1.
#[tactic(auto, using(crate::proofs::Years::like_length, crate::proofs::Years::like_date), unfolding(crate::specs::Dates::date_in_year))]
pub fn date_in_year(year: u32, day: u32) -> Option<MonthDay>
    ensures { result ≡ date_in_year year day }
{
    let like = like_year(year);
    if day < 1 || 366 - like < day {
        return None;
    }
    let MonthDay { month, day } = month_day(366 * like + (day - 1));
    Some(MonthDay {
        month: month % 12 + 1,
        day,
    })
}
