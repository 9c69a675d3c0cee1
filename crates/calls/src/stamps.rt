// Instants, stamps, their texts and the clock: NO, the numbers of an answer, zeros for those of a refusal, and MARKS.
use crate::output::Output;
use crate::words::Words;
use answer::Marked;
use labels::{Label, Reading};
use leap::Table;
use stamp::Stamp;

// NO INSTANT MARKS
pub(crate) fn tell_instant(told: Marked<i64>, out: &mut Output) {
    out.refusal(told.answer.err());
    out.number(told.answer.unwrap_or(0));
    out.marks(told.beyond);
}

// instant_of SCALE Y MO D H MI S US
pub(crate) fn instant_of(words: &mut Words, t: &Table, out: &mut Output) -> Option<()> {
    let scale = words.next_u32();
    let label = words.next_label();
    let micro = words.next_u32();
    words.end()?;
    tell_instant(stamp::instant_of(t, scale, Reading { label, micro }), out);
    Some(())
}

// Y MO D H MI S
fn label_numbers(l: Label) -> [i64; 6] {
    [l.year, l.month, l.day, l.hour, l.minute, l.second].map(i64::from)
}

// SCALE Y MO D H MI S US
fn stamp_numbers(stamp: Stamp) -> [i64; 8] {
    let scale = i64::from(u32::from(stamp.scale));
    let [year, month, day, hour, minute, second] = label_numbers(stamp.reading.label);
    let micro = i64::from(stamp.reading.micro);
    [scale, year, month, day, hour, minute, second, micro]
}

// stamp_of INSTANT SCALE: NO SCALE Y MO D H MI S US MARKS
pub(crate) fn stamp_of(words: &mut Words, t: &Table, out: &mut Output) -> Option<()> {
    let instant = words.next_i64();
    let scale = words.next_u32();
    words.end()?;
    let told = stamp::stamp_of(t, instant, scale);
    out.refusal(told.answer.err());
    out.numbers(&told.answer.map_or([0; 8], stamp_numbers));
    out.marks(told.beyond);
    Some(())
}

// read_text SCALE HEX: NO INSTANT SCALE Y MO D H MI S US MARKS
pub(crate) fn read_text(words: &mut Words, t: &Table, out: &mut Output) -> Option<()> {
    let mut bytes = [0u8; 70000];
    let scale = words.next_u32();
    let size = words.next_bytes(&mut bytes);
    words.end()?;
    let told = text::read_text(t, scale, &bytes[..size]);
    out.refusal(told.answer.err());
    out.number(told.answer.map_or(0, |(instant, _)| instant));
    out.numbers(
        &told
            .answer
            .map_or([0; 8], |(_, stamp)| stamp_numbers(stamp)),
    );
    out.marks(told.beyond);
    Some(())
}

// NO Y MO D H MI S MARKS
fn tell_label(told: Marked<Label>, out: &mut Output) {
    out.refusal(told.answer.err());
    out.numbers(&told.answer.map_or([0; 6], label_numbers));
    out.marks(told.beyond);
}

// start
pub(crate) fn start(words: &Words, t: &Table, out: &mut Output) -> Option<()> {
    words.end()?;
    tell_label(clock::start(t), out);
    Some(())
}

// tick Y MO D H MI S
pub(crate) fn tick(words: &mut Words, t: &Table, out: &mut Output) -> Option<()> {
    let label = words.next_label();
    words.end()?;
    tell_label(clock::tick(t, label), out);
    Some(())
}
