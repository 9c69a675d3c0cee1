// Text in three pictures: read on a scale, and written from an instant.
// `pictures` has the fields of a text and the text of fields; here they are judged, and taken from a stamp.
#![tactic(auto)]

ghost use Rattle.std.specs.Prelude.{◌≡◌};
ghost use Rattle.pictures.specs.Reading.{read_fields};
ghost use Rattle.text.specs.Parts.{Plain};
ghost use Rattle.text.specs.Text.{month_day_of, reading_of, fields_read, read_text, date_as, fields_of, write_text_after};
ghost use Rattle.text.specs.Marks.{marked_text, read_text_marked, write_text_marked};

use answer::{Marked, Refusal};
use calendar::MonthDay;
use labels::{Label, Reading};
use leap::Table;
use pictures::{Date, Fields};
use stamp::{Scale, Stamp};

// ---- from fields to a reading and back

// A day of a year that has it not is month 0, which no year has.
fn month_day(year: u32, date: Date) -> MonthDay
    ensures { result ≡ month_day_of year date }
{
    match date {
        Date::Numbered(month, day) | Date::Named(month, day) => MonthDay { month, day },
        Date::OfYear(day) => {
            calendar::date_in_year(year, day).unwrap_or(MonthDay { month: 0, day: 0 })
        }
    }
}

fn reading_of(f: Fields) -> Reading
    ensures { result ≡ reading_of f }
{
    let on = month_day(f.year, f.date);
    let label = Label {
        year: f.year,
        month: on.month,
        day: on.day,
        hour: f.hour,
        minute: f.minute,
        second: f.second,
    };
    Reading {
        label,
        micro: f.micro,
    }
}

// The date of a label in a picture.
#[tactic(auto, using(months::proofs::Laws::days_most))]
fn date_as(picture: u32, l: Label) -> Date
    requires { Plain l }
    ensures { result ≡ date_as picture l }
{
    let Label {
        year,
        month,
        day,
        ..
    } = l;
    match picture {
        0 => Date::Numbered(month, day),
        1 => Date::OfYear(calendar::day_of_year(12 * year + (month - 1), day) as u32),
        _ => Date::Named(month, day),
    }
}

fn fields_of(picture: u32, digits: u32, r: Reading) -> Fields
    requires { Plain r.label }
    ensures { result ≡ fields_of picture digits r }
{
    let l = r.label;
    Fields {
        year: l.year,
        date: date_as(picture, l),
        hour: l.hour,
        minute: l.minute,
        second: l.second,
        digits,
        micro: r.micro,
    }
}

// ---- the calls

// A text on a scale, or the first thing that is wrong with it: scale and table were asked for.
fn read_on(scale: Scale, t: &Table, text: &[u8]) -> Result<(i64, Stamp), Refusal>
    ensures { result ≡ fields_read t.now scale (read_fields text.now) }
{
    let Some(fields) = pictures::read_fields(text) else {
        return Err(Refusal::Shape);
    };
    let reading = reading_of(fields);
    let instant = scale.instant_in(t, reading)?;
    Ok((instant, Stamp { scale, reading }))
}

fn read(t: &Table, scale: u32, text: &[u8]) -> Result<(i64, Stamp), Refusal>
    ensures { result ≡ read_text t.now scale text.now }
{
    let scale = stamp::asked(t, scale)?;
    read_on(scale, t, text)
}

// A stamp that is read has the mark of its own month.
fn marked_text(vouched: u32, answer: Result<(i64, Stamp), Refusal>) -> Marked<(i64, Stamp)>
    ensures { result ≡ marked_text vouched answer }
{
    let beyond = match answer {
        Ok((_, z)) => {
            let month = labels::month_of(z.reading.label);
            z.scale.beyond_on(vouched, month)
        }
        Err(_) => false,
    };
    Marked::new(answer, beyond)
}

pub fn read_text(t: &Table, scale: u32, text: &[u8]) -> Marked<(i64, Stamp)>
    ensures { result ≡ read_text_marked t.now scale text.now }
{
    marked_text(t.vouched, read(t, scale, text))
}

pub fn write_text(
    t: &Table,
    instant: i64,
    picture: u32,
    scale: u32,
    digits: u32,
    out: &mut [u8],
) -> Marked<usize>
    ensures { (result ≡ write_text_marked t.now instant picture scale digits out.old) × (out.new ≡ write_text_after t.now instant picture scale digits out.old) }
{
    if 2 < picture || 6 < digits {
        return Marked::refused(Refusal::Ask);
    }
    let stamped = stamp::stamp_of(t, instant, scale);
    match stamped.answer {
        Ok(stamp) => {
            let answer = pictures::write_fields(fields_of(picture, digits, stamp.reading), out);
            Marked::new(answer, stamped.beyond)
        }
        // No `?`: the answer is a Marked. A call that is refused has written nothing.
        Err(why) => Marked::refused(why),
    }
}
