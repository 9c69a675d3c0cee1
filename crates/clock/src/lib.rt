// The plain clock: a UTC label of whole seconds, its start and its tick.
// The tick is the rule by cases and goes through no instant: this crate does not know the conversions, with which the promises join it.
#![tactic(auto)]

ghost use Rattle.std.specs.Prelude.{◌≡◌, [], ◌∷◌, ◌+◌, ◌≤◌, Err, Ok};
ghost use Rattle.answer.specs.declared.Refusal.TheVariants.{NoSecond as NOSECOND};
ghost use Rattle.answer.specs.Refusals.{refusing};
ghost use Rattle.months.specs.Months.{month_length};
ghost use Rattle.leap.specs.Leap.{offset_at};
ghost use Rattle.labels.specs.Labels.{label, whole, month_of, minute_in, minute_length, judged, has_second};
ghost use Rattle.clock.specs.Clock.{next, tick_in, start, tick};
ghost use Rattle.clock.specs.Marks.{marked_tick, start_marked, tick_marked};

use answer::{Marked, Refusal};
use labels::{Label, Month, Reading};
use leap::{OffsetPair, Table};

fn midnight(year: u32, month: u32, day: u32) -> Label
    ensures { result ≡ label year month day 0 0 0 }
{
    Label {
        year,
        month,
        day,
        hour: 0,
        minute: 0,
        second: 0,
    }
}

// The offsets by which the label's minute is long; only the last minute of a month asks the table.
#[tactic(auto, unfolding(labels::specs::Labels::minute_in))]
fn near_end(t: &Table, month: Month, l: Label) -> OffsetPair
    ensures { minute_in month.days result.here result.next l ≡ minute_in month.days (offset_at t.now month.number) (offset_at t.now (month.number + 1)) l }
{
    if labels::in_last_minute(month.days, l) {
        t.near(month.number)
    } else {
        OffsetPair { here: 0, next: 0 }
    }
}

// The rule: `days` is the length of the label's month, `seconds` that of its minute.
#[tactic(auto, unfolding(crate::specs::Clock::next))]
fn next(days: u32, seconds: u32, l: Label) -> Result<Label, Refusal>
    requires { l.second ≤ 60 }
    ensures { result ≡ next days seconds l }
{
    let Label {
        year,
        month,
        day,
        hour,
        minute,
        second,
    } = l;
    let after = if second + 1 < seconds {
        Label {
            second: second + 1,
            ..l
        }
    } else if minute < 59 {
        Label {
            minute: minute + 1,
            second: 0,
            ..l
        }
    } else if hour < 23 {
        Label {
            hour: hour + 1,
            ..midnight(year, month, day)
        }
    } else if day < days {
        midnight(year, month, day + 1)
    } else if month < 12 {
        midnight(year, month + 1, 1)
    } else if year < 9999 {
        midnight(year + 1, 1, 1)
    } else {
        return Err(Refusal::Range);
    };
    Ok(after)
}

// The next label after one whose fields were judged, if UTC has its second.
fn tick_judged(t: &Table, l: Label, month: Month) -> Result<Label, Refusal>
    requires { judged 60 (whole l) ≡ Ok month }
    ensures { result ≡ refusing Err ((has_second (offset_at t.now) l, NOSECOND) ∷ []) (next (month_length (month_of l)) (minute_length (offset_at t.now) l) l) }
{
    let near = near_end(t, month, l);
    let seconds = labels::minute_length(month.days, near.here, near.next, l);
    if seconds <= l.second {
        return Err(Refusal::NoSecond);
    }
    next(month.days, seconds, l)
}

// The next label, or the first thing that is wrong with this one, under a table that was judged.
fn tick_in(t: &Table, l: Label) -> Result<Label, Refusal>
    ensures { result ≡ tick_in t.now l }
{
    let month = labels::judge(60, Reading { label: l, micro: 0 })?;
    tick_judged(t, l, month)
}

// The answer of `start`, not yet marked.
#[tactic(auto, unfolding(crate::specs::Clock::start))]
fn started(t: &Table) -> Result<Label, Refusal>
    ensures { result ≡ start t.now }
{
    if !t.is_accepted() {
        return Err(Refusal::Table);
    }
    Ok(midnight(1972, 1, 1))
}

// The answer of `tick`, not yet marked.
#[tactic(auto, unfolding(crate::specs::Clock::tick))]
fn ticked(t: &Table, l: Label) -> Result<Label, Refusal>
    ensures { result ≡ tick t.now l }
{
    if !t.is_accepted() {
        return Err(Refusal::Table);
    }
    tick_in(t, l)
}

// The mark of an answer under a table of this number; a refusal has none.
fn beyond_tick(vouched: u32, answer: Result<Label, Refusal>) -> bool
    ensures { result ≡ (marked_tick vouched answer).beyond }
{
    answer.is_ok_and(|l| leap::beyond(vouched, labels::month_of(l)))
}

pub fn start(t: &Table) -> Marked<Label>
    ensures { result ≡ start_marked t.now }
{
    let answer = started(t);
    Marked {
        answer,
        beyond: beyond_tick(t.vouched, answer),
    }
}

pub fn tick(t: &Table, l: Label) -> Marked<Label>
    ensures { result ≡ tick_marked t.now l }
{
    let answer = ticked(t, l);
    Marked {
        answer,
        beyond: beyond_tick(t.vouched, answer),
    }
}
