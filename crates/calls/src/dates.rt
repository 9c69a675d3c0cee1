// Julian dates.
use crate::output::Output;
use crate::stamps::tell_instant;
use crate::words::Words;
use julian::JulianDate;
use leap::Table;

// write_julian INSTANT SCALE: NO BITS BITS MARKS
pub(crate) fn write_julian(words: &mut Words, t: &Table, out: &mut Output) -> Option<()> {
    let instant = words.next_i64();
    let scale = words.next_u32();
    words.end()?;
    let told = julian::write_julian(t, instant, scale);
    out.refusal(told.answer.err());
    out.double(told.answer.map_or(0.0, |date| date.midnight));
    out.double(told.answer.map_or(0.0, |date| date.fraction));
    out.marks(told.beyond);
    Some(())
}

// read_julian SCALE BITS BITS
pub(crate) fn read_julian(words: &mut Words, t: &Table, out: &mut Output) -> Option<()> {
    let scale = words.next_u32();
    let midnight = words.next_double();
    let fraction = words.next_double();
    words.end()?;
    tell_instant(
        julian::read_julian(t, scale, JulianDate { midnight, fraction }),
        out,
    );
    Some(())
}
