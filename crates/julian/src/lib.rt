// Two-part Julian dates: the pair of doubles that is written for an instant, and the instant that a pair is read as.
// Between a pair and an instant stand a day, counted from year 0, and a microsecond of it: the fraction is of that day's own length.
#![tactic(auto)]

ghost use Rattle.std.specs.Prelude.{◌≡◌, ◌*◌, T};
ghost use Rattle.julian.specs.Midnight.{midnight_in_years, day_number};
ghost use Rattle.julian.specs.Dates.{pair_at};
ghost use Rattle.julian.specs.Marks.{write_julian_marked, read_in_marked, read_julian_marked};

use answer::{Marked, Refusal};
use leap::Table;
use stamp::{DayTime, Scale};

// The midnight ends in .5, and the fraction is at least 0 and below 1.
#[derive(Clone, Copy, Debug, PartialEq)]
pub struct JulianDate {
    pub midnight: f64,
    pub fraction: f64,
}

// The whole part of the midnight of 1 January of year 0.
const YEAR_0: u64 = 1721059;

// ---- an instant to a pair

// The fraction is one rounded division.
fn pair_of(d: DayTime) -> JulianDate
    ensures { result ≡ pair_at d.day d.micro (1000000 * d.seconds) }
{
    let midnight = std::num::nearest_u64_to_f64(YEAR_0 + d.day as u64) + 0.5;
    let fraction = fraction::fraction_of(d.micro, 1000000 * d.seconds as u64);
    JulianDate { midnight, fraction }
}

pub fn write_julian(t: &Table, instant: i64, scale: u32) -> Marked<JulianDate>
    ensures { result ≡ write_julian_marked t.now instant scale }
{
    let shown = stamp::shown_of(t, instant, scale);
    Marked::new(shown.answer.map(pair_of), shown.beyond)
}

// ---- a pair to an instant

// From 1972-01-01 to 9999-12-31.
fn in_years(x: f64) -> bool
    ensures { result ≡ midnight_in_years x }
{
    2441317.5 <= x && x <= 5373483.5
}

// Counted from 1 January of year 0.
fn day_number(x: f64) -> u32
    requires { T (midnight_in_years x) }
    ensures { result ≡ day_number x }
{
    (std::num::truncating_f64_to_u64(x) - YEAR_0) as u32
}

// The instant of a pair, or the first thing that is wrong with it: scale and table were asked for.
fn read_in(scale: Scale, t: &Table, date: JulianDate) -> Marked<i64>
    ensures { result ≡ read_in_marked t.now scale date }
{
    if !fraction::is_half(date.midnight) || !fraction::is_fraction(date.fraction) {
        return Marked::refused(Refusal::Number);
    }
    if !in_years(date.midnight) {
        return Marked::refused(Refusal::Range);
    }
    let days = scale.day_on(t, day_number(date.midnight));
    let seconds = days.seconds as u64;
    // A second has 15625 * 2^6 microseconds.
    let micro = fraction::nearest_of(date.fraction, 15625 * seconds, 6);
    if micro < 1000000 * seconds {
        scale.instant_on(t.vouched, days.this, micro)
    } else {
        // As many as the day has are the next midnight.
        scale.instant_on(t.vouched, days.next, 0)
    }
}

pub fn read_julian(t: &Table, scale: u32, date: JulianDate) -> Marked<i64>
    ensures { result ≡ read_julian_marked t.now scale date }
{
    // No `?`: the answer is a Marked.
    match stamp::asked(t, scale) {
        Ok(s) => read_in(s, t, date),
        Err(why) => Marked::refused(why),
    }
}
