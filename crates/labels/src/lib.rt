// Labels and readings: which exist, how long a label's minute and a day are, and the label of a second of a month.
// No table and no scale is known here: what they say of a month and of the next comes in as two offsets.
#![tactic(auto)]

ghost use Rattle.std.specs.Prelude.{◌≡◌, ◌≤◌};
ghost use Rattle.labels.specs.Labels.{month_of, real_year, real_month, day_in, real_clock, judged, last_minute, in_last_minute, minute_in};
ghost use Rattle.labels.specs.Lengths.{seconds_in};
ghost use Rattle.labels.specs.Back.{minute_of, day_of, in_day, label_of};

use answer::Refusal;

// A calendar label of whole seconds.
#[derive(Clone, Copy, Debug, PartialEq, Eq)]
pub struct Label {
    pub year: u32,
    pub month: u32,
    pub day: u32,
    pub hour: u32,
    pub minute: u32,
    pub second: u32,
}

#[derive(Clone, Copy, Debug, PartialEq, Eq)]
pub struct Reading {
    pub label: Label,
    pub micro: u32,
}

// A month, counted from January of year 0, and how many days it has.
#[derive(Clone, Copy, Debug, PartialEq, Eq)]
pub struct Month {
    pub number: u32,
    pub days: u32,
}

// A second of a month, counted from its beginning; the month with the days before it and its own.
#[derive(Clone, Copy, Debug, PartialEq, Eq)]
pub struct Place {
    pub month: u32,
    pub start: u64,
    pub days: u32,
    pub second: u32,
}

// No methods: `SettledParts` of promises states each public function by its arguments in this order, two offsets one by one.

// The label's month, counted from January of year 0; month 0, which no year has, counts as its first.
pub fn month_of(l: Label) -> u64
    ensures { result ≡ month_of l }
{
    12 * l.year as u64 + l.month.saturating_sub(1) as u64
}

// ---- which labels exist

#[tactic(auto, unfolding(crate::specs::Labels::real_year))]
fn real_year(l: Label) -> bool
    ensures { result ≡ real_year l }
{
    (1972..=9999).contains(&l.year)
}

#[tactic(auto, unfolding(crate::specs::Labels::real_month))]
fn real_month(l: Label) -> bool
    ensures { result ≡ real_month l }
{
    (1..=12).contains(&l.month)
}

// A month of so many days has the label's day.
fn day_in(days: u32, l: Label) -> bool
    ensures { result ≡ day_in days l }
{
    (1..=days).contains(&l.day)
}

#[tactic(auto, unfolding(crate::specs::Labels::real_clock))]
fn real_clock(most: u32, r: Reading) -> bool
    ensures { result ≡ real_clock most r }
{
    let l = r.label;
    l.hour <= 23 && l.minute <= 59 && l.second <= most && r.micro <= 999999
}

// All that is judged without an offset; `most` is the highest second that the scale may have.
#[tactic(auto, using(crate::proofs::Facts::year_to, crate::proofs::Facts::month_to), unfolding(crate::specs::Labels::judged, crate::specs::Labels::real_day))]
pub fn judge(most: u32, r: Reading) -> Result<Month, Refusal>
    ensures { result ≡ judged most r }
{
    let l = r.label;
    if !real_year(l) {
        return Err(Refusal::Year);
    }
    if !real_month(l) {
        return Err(Refusal::Date);
    }
    let number = 12 * l.year + (l.month - 1);
    let days = calendar::month_length(number);
    if !day_in(days, l) {
        return Err(Refusal::Date);
    }
    if !real_clock(most, r) {
        return Err(Refusal::Clock);
    }
    Ok(Month { number, days })
}

// The label stands in the last minute of its month, which has so many days.
pub fn in_last_minute(days: u32, l: Label) -> bool
    ensures { result ≡ in_last_minute days l }
{
    l.day == days && l.hour == 23 && l.minute == 59
}

#[tactic(auto, using(laws::proofs::Machine::less_is), unfolding(crate::specs::Labels::last_minute))]
fn last_minute(here: i32, next: i32) -> u32
    ensures { result ≡ last_minute here next }
{
    if here < next {
        61
    } else if next < here {
        59
    } else {
        60
    }
}

// The seconds of the label's minute, by its month's offset and the next month's.
#[tactic(auto, using(laws::proofs::Machine::read2), unfolding(crate::specs::Labels::minute_in))]
pub fn minute_length(days: u32, here: i32, next: i32, l: Label) -> u32
    ensures { result ≡ minute_in days here next l }
{
    if in_last_minute(days, l) {
        last_minute(here, next)
    } else {
        60
    }
}

// The seconds of a day, which may be the last of its month.
#[tactic(auto, using(laws::proofs::Machine::read2, crate::proofs::Turn::last_range), unfolding(crate::specs::Lengths::seconds_in))]
pub fn day_seconds(last: bool, here: i32, next: i32) -> u32
    ensures { result ≡ seconds_in last here next }
{
    if last {
        86340 + last_minute(here, next)
    } else {
        86400
    }
}

// ---- the label of a second

fn minute_of(rest: u32) -> u32
    ensures { result ≡ minute_of rest }
{
    (rest / 60).min(1439)
}

#[tactic(auto, unfolding(crate::specs::Back::in_day))]
fn in_day(m: u32, d: u32, rest: u32) -> Label
    requires { d ≤ 4294967294 }
    ensures { result ≡ in_day m d rest }
{
    let minute = minute_of(rest);
    Label {
        year: m / 12,
        month: m % 12 + 1,
        day: d + 1,
        hour: minute / 60,
        minute: minute % 60,
        second: rest - 60 * minute,
    }
}

// The day that a second of a month of so many days is in, counted from 0; the last takes what is left.
pub fn day_of(days: u32, rest: u32) -> u32
    ensures { result ≡ day_of days rest }
{
    (rest / 86400).min(days.saturating_sub(1))
}

// The month's last minute takes what its days leave over.
#[tactic(auto, unfolding(crate::specs::Back::label_of))]
pub fn label_of(p: Place) -> Label
    ensures { result ≡ label_of p }
{
    let day = day_of(p.days, p.second);
    in_day(p.month, day, p.second - 86400 * day)
}
