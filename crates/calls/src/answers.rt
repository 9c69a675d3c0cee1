// A line to its answer. A further call is a name in `calls`, and a line here.
use crate::calls::Call;
use crate::dates::{read_julian, write_julian};
use crate::output::Output;
use crate::stamps::{instant_of, read_text, stamp_of, start, tick};
use crate::tables::{read_table, take_table, vouch};
use crate::words::Words;
use crate::writers::{renew, revert, write_table, write_text};
use leap::Table;

// Answers a call; None where its words are no good, and nothing is said then.
fn answer_call(call: Call, words: &mut Words, t: &mut Table, out: &mut Output) -> Option<()> {
    match call {
        Call::Read(form) => read_table(form, words, out),
        Call::Write(form) => write_table(form, words, t, out),
        Call::WriteText => write_text(words, t, out),
        Call::Renew => renew(words, out),
        Call::Revert => revert(words, out),
        Call::Table => take_table(words, t, out),
        Call::Vouch => vouch(words, t, out),
        Call::ReadText => read_text(words, t, out),
        Call::InstantOf => instant_of(words, t, out),
        Call::StampOf => stamp_of(words, t, out),
        Call::ReadJulian => read_julian(words, t, out),
        Call::WriteJulian => write_julian(words, t, out),
        Call::Start => start(words, t, out),
        Call::Tick => tick(words, t, out),
    }
}

fn answer_words(line: &[u8], t: &mut Table, out: &mut Output) -> Option<()> {
    let end = lines::front(line, lines::until(line, 0, b' '));
    let call = Call::named(&line[..end])?;
    answer_call(call, &mut Words::behind(line, end), t, out)
}

// Answers a line, `?` where it is no call, and has the table for the next one in `t`.
pub(crate) fn answer(line: &[u8], t: &mut Table, out: &mut Output) {
    if answer_words(line, t, out).is_none() {
        out.text(b"?");
    }
    out.end_line();
}
