// Scales and stamps: the instant of a stamp, and the stamp of an instant; the day that a scale shows, and the instant of a microsecond of a day.
// An instant is a count of TAI microseconds from 2000-01-01 12:00:00 TAI; a scale's own axis counts microseconds from year 0.
#![tactic(auto)]

ghost use Rattle.std.specs.Prelude.{◌≡◌, true, false, [], ◌∷◌, ◌+◌, ◌*◌, ◌/◌, ◌≤◌, pos, negsuc, ◌-ℤ◌, ◌≤ℤ◌, Err, Ok};
ghost use Rattle.answer.specs.declared.Refusal.TheVariants.{NoSecond as NOSECOND};
ghost use Rattle.answer.specs.Marks.{marked};
ghost use Rattle.answer.specs.Refusals.{refusing};
ghost use Rattle.leap.specs.Leap.{accepted};
ghost use Rattle.months.specs.Months.{days_before};
ghost use Rattle.labels.specs.Labels.{month_of, judged, has_second};
ghost use Rattle.labels.specs.Seconds.{micro_of, axis_at, in_years, last_month};
ghost use Rattle.labels.specs.Back.{day_begins};
ghost use Rattle.stamp.specs.Scales.{scale_of, scale_known, scale_number, asked, fixed, offsets_of, most_second, to_instant, instant_for};
ghost use Rattle.stamp.specs.Parts.{first_offset, spot_at, moment_in, moment_of, moment_stamp, moment_day, day_after};
ghost use Rattle.stamp.specs.Back.{in_range, axis_count};
ghost use Rattle.stamp.specs.Days.{day_on};
ghost use Rattle.stamp.specs.Stamps.{instant_in};
ghost use Rattle.stamp.specs.Marks.{beyond_on, instant_of_marked, stamp_of_marked, shown_of_marked, instant_on_marked};

use answer::{Marked, Refusal};
use labels::{Label, Month, Place, Reading};
use leap::{OffsetPair, Table};

#[derive(Clone, Copy, Debug, PartialEq, Eq)]
pub enum Scale {
    Utc,
    Tai,
    Tdt,
    Gps,
}

// A reading never goes without its scale.
#[derive(Clone, Copy, Debug, PartialEq, Eq)]
pub struct Stamp {
    pub scale: Scale,
    pub reading: Reading,
}

// What a scale shows: a day, counted from year 0, the microsecond of it, and how many seconds the day has.
#[derive(Clone, Copy, Debug, PartialEq, Eq)]
pub struct DayTime {
    pub day: u32,
    pub micro: u64,
    pub seconds: u32,
}

// A day and its month, both counted from year 0, and TAI less the scale in it, in seconds.
#[derive(Clone, Copy, Debug, PartialEq, Eq)]
pub struct DayStart {
    pub number: u64,
    pub month: u64,
    pub offset: i32,
}

// A day, the next one, and how many seconds lie between their midnights.
#[derive(Clone, Copy, Debug, PartialEq, Eq)]
pub struct DaySpan {
    pub this: DayStart,
    pub next: DayStart,
    pub seconds: u32,
}

// A second of a month, and how many seconds its day has.
#[derive(Clone, Copy)]
struct Spot {
    place: Place,
    seconds: u32,
}

// Where an instant falls on its scale: a second, and the microsecond of that.
#[derive(Clone, Copy)]
struct Moment {
    scale: Scale,
    spot: Spot,
    micro: u32,
}

// ---- the numbers of the scales

// The number of a scale in the scope.
impl From<Scale> for u32 {
    ghost from_gives = { λ scale n. n ≡ scale_number scale };

    fn from(scale: Scale) -> u32 {
        match scale {
            Scale::Utc => 0,
            Scale::Tai => 1,
            Scale::Tdt => 2,
            Scale::Gps => 3,
        }
    }
}

// The scale of a number, if it is one of a scale.
impl TryFrom<u32> for Scale {
    type Error = Refusal;

    ghost try_from_gives = { λ number answer. answer ≡ scale_known number };

    fn try_from(number: u32) -> Result<Scale, Refusal> {
        if number <= Scale::MOST {
            Ok(Scale::numbered(number))
        } else {
            Err(Refusal::Ask)
        }
    }
}

// What every call with a table and a scale is asked first.
#[tactic(auto, unfolding(crate::specs::Scales::asked))]
pub fn asked(t: &Table, scale: u32) -> Result<Scale, Refusal>
    ensures { result ≡ asked t.now scale }
{
    let scale = Scale::try_from(scale)?;
    if !t.is_accepted() {
        return Err(Refusal::Table);
    }
    Ok(scale)
}

// ---- microseconds and seconds

// A microsecond that a scale shows, where TAI is `offset` seconds on, as the axis counts it.
#[tactic(auto, unfolding(labels::specs::Seconds::axis_at))]
fn axis_at(micro: u64, offset: i32) -> i64
    requires { micro ≤ 400000000000000000 }
    ensures { result ≡ axis_at micro offset }
{
    let u = micro as i64;
    let o = offset as i64;
    u + 1000000 * o
}

// What a reading shows, whose month has `start` days before it.
#[tactic(auto, unfolding(labels::specs::Seconds::second_of))]
fn micro_of(r: Reading, start: u64) -> u64
    requires start_value { (start ≡ days_before (month_of r.label)) × (start ≤ 4000000) }
    requires le_day { (1 ≤ r.label.day) × ((r.label.day ≤ 31) × ((r.label.hour ≤ 23) × ((r.label.minute ≤ 59) × ((r.label.second ≤ 60) × (r.micro ≤ 999999))))) }
    ensures { (result ≡ micro_of r) × (result ≤ 400000000000000000) }
{
    let Label {
        day,
        hour,
        minute,
        second,
        ..
    } = r.label;
    let days = start + (day - 1) as u64;
    let time = 3600 * hour + (60 * minute + second);
    1000000 * (86400 * days + time as u64) + r.micro as u64
}

// The seconds of the axis since a day began, where TAI is `offset` seconds on; negative before it.
fn elapsed(day: u64, offset: i32, second: u64) -> i64
    requires { (day ≤ 5000000) × (second ≤ 500000000000) }
    ensures { result ≡ pos second -ℤ day_begins day offset }
{
    let d = (86400 * day) as i64;
    let o = offset as i64;
    let s = second as i64;
    s - (d + o)
}

impl Scale {
    // A uniform scale less TAI, in microseconds.
    pub const TAI: i64 = 0;

    pub const TDT: i64 = 32184000;

    pub const GPS: i64 = -19000000;

    // The largest number that a scale has.
    pub const MOST: u32 = 3;

    // The first and the last microsecond that every scale shows.
    pub const FIRST: u64 = 62230291200000000;

    pub const LAST: u64 = 315569519999999999;

    // 1 January 1972 and 31 December 9999.
    const FIRST_DAY: u64 = 720258;

    const LAST_DAY: u64 = 3652424;

    // The microseconds of a day, and of one with an added second.
    const DAY: u64 = 86400000000;

    const LONGEST: u64 = 86401000000;

    // December 9999.
    const LAST_MONTH: u32 = 119999;

    // No instant before or after them has a label.
    const EARLIEST: i64 = -63000000000000000;

    const LATEST: i64 = 300000000000000000;

    // The scale of a number; 3 and above give GPS.
    pub fn numbered(number: u32) -> Scale
        ensures { result ≡ scale_of number }
    {
        match number {
            0 => Scale::Utc,
            1 => Scale::Tai,
            2 => Scale::Tdt,
            _ => Scale::Gps,
        }
    }

    // ---- its calendar rule

    fn most_second(self) -> u32
        ensures { result ≡ most_second self }
    {
        match self {
            Scale::Utc => 60,
            Scale::Tai | Scale::Tdt | Scale::Gps => 59,
        }
    }

    // TAI less the scale in month m and in the next, in whole seconds.
    fn near(self, t: &Table, m: u32) -> OffsetPair
        ensures { (result.here ≡ offsets_of t.now self m) × (result.next ≡ offsets_of t.now self (m + 1)) }
    {
        match self {
            Scale::Utc => t.near(m),
            Scale::Tai | Scale::Tdt | Scale::Gps => OffsetPair { here: 0, next: 0 },
        }
    }

    // In January 1972, the first month of every accepted table.
    fn first_offset(self) -> i32
        ensures { result ≡ first_offset self }
    {
        match self {
            Scale::Utc => 10,
            Scale::Tai | Scale::Tdt | Scale::Gps => 0,
        }
    }

    // In December 9999.
    fn last_offset(self, t: &Table) -> i32
        ensures { result ≡ offsets_of t.now self last_month }
    {
        match self {
            Scale::Utc => t.offset_at(Scale::LAST_MONTH),
            Scale::Tai | Scale::Tdt | Scale::Gps => 0,
        }
    }

    // UTC has a mark in the calendar's month m, under a table of number `vouched`, a uniform scale none.
    pub fn beyond_on(self, vouched: u32, m: u64) -> bool
        ensures { result ≡ beyond_on vouched self m }
    {
        match self {
            Scale::Utc => leap::beyond(vouched, m),
            Scale::Tai | Scale::Tdt | Scale::Gps => false,
        }
    }

    // ---- its map between axis and instants

    fn fixed(self) -> i64
        ensures { result ≡ fixed self }
    {
        match self {
            Scale::Utc => 0,
            Scale::Tai => Scale::TAI,
            Scale::Tdt => Scale::TDT,
            Scale::Gps => Scale::GPS,
        }
    }

    // The instant at which the scale shows a microsecond, where TAI is `offset` seconds on.
    fn instant(self, micro: u64, offset: i32) -> i64
        requires { micro ≤ 400000000000000000 }
        ensures { result ≡ to_instant self (axis_at micro offset) }
    {
        let a = axis_at(micro, offset);
        let f = self.fixed();
        a - 63113947200000000 - f
    }

    #[tactic(auto, unfolding(crate::specs::Scales::to_axis))]
    fn axis(self, instant: i64) -> u64
        requires { (negsuc 62999999999999999 ≤ℤ instant) × (instant ≤ℤ pos 300000000000000000) }
        ensures { result ≡ axis_count self instant }
    {
        let f = self.fixed();
        (instant + f + 63113947200000000) as u64
    }

    // ---- a reading to its instant

    // The instant of a reading whose fields were judged, if the scale has its second.
    fn instant_judged(self, t: &Table, r: Reading, month: Month) -> Result<i64, Refusal>
        requires { judged (most_second self) r ≡ Ok month }
        ensures { result ≡ refusing Err ((has_second (offsets_of t.now self) r.label, NOSECOND) ∷ []) (Ok (instant_for t.now self r)) }
    {
        let l = r.label;
        let m = month.number;
        let near = self.near(t, m);
        let here = near.here;
        if labels::minute_length(month.days, here, near.next, l) <= l.second {
            return Err(Refusal::NoSecond);
        }
        Ok(self.instant(micro_of(r, months::days_before(m)), here))
    }

    // The instant of a reading, or the first thing that is wrong with it: for callers that have asked for scale and table.
    pub fn instant_in(self, t: &Table, r: Reading) -> Result<i64, Refusal>
        ensures { result ≡ instant_in t.now self r }
    {
        let month = labels::judge(self.most_second(), r)?;
        self.instant_judged(t, r, month)
    }

    // ---- an instant to its moment

    // The month that a microsecond of the axis falls in, the second of it and the seconds of its day. Offsets are at most 73 seconds: the
    // month of 128 seconds before is that month or the one before it, whose end the same read of the calendar gives.
    fn spot_at(self, t: &Table, axis: u64) -> Spot
        requires offsets_value { accepted t.now ≡ true }
        requires axis_value { in_years (offsets_of t.now self) (pos axis) ≡ true }
        ensures { result ≡ spot_at (offsets_of t.now self) (axis / 1000000) }
    {
        let second = axis / 1000000;
        let span = calendar::month_of_day(((second - 128) / 86400) as u32);
        let m = span.number;
        let near = self.near(t, m);
        let end = span.start + span.length as u64;
        let past = elapsed(end, near.next, second);
        if 0 <= past {
            // So soon behind its begin it is the month's first day.
            return Spot {
                place: Place {
                    month: m + 1,
                    start: end,
                    days: calendar::month_length(m + 1),
                    second: past as u32,
                },
                seconds: 86400,
            };
        }
        let rest = elapsed(span.start, near.here, second) as u32;
        let last = 86400 * (span.length - 1) <= rest;
        let place = Place {
            month: m,
            start: span.start,
            days: span.length,
            second: rest,
        };
        let seconds = labels::day_seconds(last, near.here, near.next);
        Spot { place, seconds }
    }

    // The scale has a label for a microsecond of its axis.
    fn in_years(self, t: &Table, axis: u64) -> bool
        requires { (accepted t.now ≡ true) × (axis ≤ 400000000000000000) }
        ensures { result ≡ in_years (offsets_of t.now self) (pos axis) }
    {
        let first = axis_at(Scale::FIRST, self.first_offset());
        let last = axis_at(Scale::LAST, self.last_offset(t));
        let a = axis as i64;
        first <= a && a <= last
    }

    // The scale has a label for the instant. None so far from 2000 has one, and nearer ones have their place on the axis.
    fn in_range(self, t: &Table, instant: i64) -> bool
        requires { accepted t.now ≡ true }
        ensures { result ≡ in_range t.now self instant }
    {
        Scale::EARLIEST <= instant
            && (instant <= Scale::LATEST && self.in_years(t, self.axis(instant)))
    }

    fn moment_in(self, t: &Table, instant: i64) -> Result<Moment, Refusal>
        requires { accepted t.now ≡ true }
        ensures { result ≡ moment_in t.now self instant }
    {
        if !self.in_range(t, instant) {
            return Err(Refusal::Range);
        }
        let axis = self.axis(instant);
        let spot = self.spot_at(t, axis);
        let micro = (axis % 1000000) as u32;
        Ok(Moment {
            scale: self,
            spot,
            micro,
        })
    }

    // ---- days

    // A day of the scale, and the next one.
    pub fn day_on(self, t: &Table, day: u32) -> DaySpan
        ensures { result ≡ day_on (offsets_of t.now self) day }
    {
        let span = calendar::month_of_day(day);
        let m = span.number;
        let near = self.near(t, m);
        let number = day as u64;
        let last = number + 1 == span.start + span.length as u64;
        let this = DayStart {
            number,
            month: m as u64,
            offset: near.here,
        };
        let next = this.day_after(last, near.next);
        DaySpan {
            this,
            next,
            seconds: labels::day_seconds(last, near.here, near.next),
        }
    }

    // The instant of a microsecond of a day: for callers that have asked for scale and table.
    pub fn instant_on(self, vouched: u32, day: DayStart, micro: u64) -> Marked<i64>
        ensures { result ≡ instant_on_marked vouched self day micro }
    {
        let DayStart {
            number,
            month,
            offset,
        } = day;
        if number < Scale::FIRST_DAY || Scale::LAST_DAY < number || Scale::LONGEST < micro {
            return refused_instant(Refusal::Range);
        }
        let instant = self.instant(Scale::DAY * number + micro, offset);
        Marked::new(Ok(instant), self.beyond_on(vouched, month))
    }
}

impl DayStart {
    // The day behind it, in the next month where it is the last of its own.
    fn day_after(self, last: bool, offset: i32) -> DayStart
        requires { (self.number ≤ 4294967295) × (self.month ≤ 4294967295) }
        ensures { result ≡ day_after self last offset }
    {
        let number = self.number + 1;
        if last {
            DayStart {
                number,
                month: self.month + 1,
                offset,
            }
        } else {
            DayStart { number, ..self }
        }
    }
}

impl Moment {
    fn stamp(self) -> Stamp
        ensures { result ≡ moment_stamp self }
    {
        let reading = Reading {
            label: labels::label_of(self.spot.place),
            micro: self.micro,
        };
        Stamp {
            scale: self.scale,
            reading,
        }
    }

    // The day that it is on, and the microsecond of that.
    fn day_time(self) -> DayTime
        requires { (self.spot.place.start ≤ 4000000) × ((self.spot.place.second ≤ 3000000) × (self.micro ≤ 999999)) }
        ensures { result ≡ moment_day self }
    {
        let Spot { place, seconds } = self.spot;
        let d = labels::day_of(place.days, place.second);
        let day = (place.start + d as u64) as u32;
        let micro = 1000000 * (place.second - 86400 * d) as u64 + self.micro as u64;
        DayTime {
            day,
            micro,
            seconds,
        }
    }

    // Under a table of number `vouched`.
    fn is_beyond(self, vouched: u32) -> bool
        ensures { result ≡ beyond_on vouched self.scale self.spot.place.month }
    {
        let month = self.spot.place.month as u64;
        self.scale.beyond_on(vouched, month)
    }
}

// ---- the calls: an answer has its mark beside it, and so no `?`

// A refusal in the place of an instant has no mark.
pub fn refused_instant(why: Refusal) -> Marked<i64>
    ensures { result ≡ marked (Err why) false }
{
    Marked::refused(why)
}

pub fn instant_of(t: &Table, scale: u32, r: Reading) -> Marked<i64>
    ensures { result ≡ instant_of_marked t.now scale r }
{
    match asked(t, scale) {
        Ok(s) => {
            let beyond = s.beyond_on(t.vouched, labels::month_of(r.label));
            Marked::new(s.instant_in(t, r), beyond)
        }
        Err(why) => refused_instant(why),
    }
}

fn moment_of(t: &Table, instant: i64, scale: u32) -> Result<Moment, Refusal>
    ensures { result ≡ moment_of t.now instant scale }
{
    let s = asked(t, scale)?;
    s.moment_in(t, instant)
}

pub fn stamp_of(t: &Table, instant: i64, scale: u32) -> Marked<Stamp>
    ensures { result ≡ stamp_of_marked t.now instant scale }
{
    match moment_of(t, instant, scale) {
        Ok(m) => Marked::new(Ok(m.stamp()), m.is_beyond(t.vouched)),
        Err(why) => Marked::refused(why),
    }
}

// The day that a scale shows at an instant, and the microsecond of it.
// One function for this and `stamp_of` would take what is made of a moment as a closure: no plainer.
pub fn shown_of(t: &Table, instant: i64, scale: u32) -> Marked<DayTime>
    ensures { result ≡ shown_of_marked t.now instant scale }
{
    match moment_of(t, instant, scale) {
        Ok(m) => Marked::new(Ok(m.day_time()), m.is_beyond(t.vouched)),
        Err(why) => Marked::refused(why),
    }
}
