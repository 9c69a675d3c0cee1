// What writes bytes: text, tables as blocks, kernels and cards, and blocks moved into the other form.
// Each has ROOM, how much of a buffer the writer is lent, and all of that is told.
use crate::calls::Form;
use crate::output::Output;
use crate::words::Words;
use answer::Refusal;
use leap::Table;

// The most that is lent, and what stands there before.
const BUFFER: [u8; 8192] = [165; 8192];

// write_text INSTANT PICTURE SCALE DIGITS ROOM: NO LENGTH HEX MARKS
pub(crate) fn write_text(words: &mut Words, t: &Table, out: &mut Output) -> Option<()> {
    let instant = words.next_i64();
    let picture = words.next_u32();
    let scale = words.next_u32();
    let digits = words.next_u32();
    let mut buffer = BUFFER;
    let lent = words.next_room(&mut buffer);
    words.end()?;
    let written = text::write_text(t, instant, picture, scale, digits, lent);
    out.refusal(written.answer.err());
    out.size(written.answer.unwrap_or(0));
    out.hex(lent);
    out.marks(written.beyond);
    Some(())
}

fn write_bytes(form: Form, t: &Table, out: &mut [u8]) -> Result<usize, Refusal> {
    match form {
        Form::Block => block::write_block(t, out),
        Form::NewBlock => block::write_new_block(t, out),
        Form::Kernel => kernel::write_kernel(t, out),
        Form::Cards => cards::write_cards(t, out),
    }
}

// write_block ROOM, write_new_block ROOM, write_kernel ROOM, write_cards ROOM: NO LENGTH HEX
pub(crate) fn write_table(
    form: Form,
    words: &mut Words,
    t: &Table,
    out: &mut Output,
) -> Option<()> {
    let mut buffer = BUFFER;
    let lent = words.next_room(&mut buffer);
    words.end()?;
    let written = write_bytes(form, t, lent);
    out.refusal(written.err());
    out.size(written.unwrap_or(0));
    out.hex(lent);
    Some(())
}

// renew HEX VOUCHED ROOM: NO PLACE LENGTH HEX
pub(crate) fn renew(words: &mut Words, out: &mut Output) -> Option<()> {
    let mut bytes = [0u8; 70000];
    let size = words.next_bytes(&mut bytes);
    let vouched = words.next_u32();
    let mut buffer = BUFFER;
    let lent = words.next_room(&mut buffer);
    words.end()?;
    let moved = block::renew(&bytes[..size], vouched, lent);
    out.fault(moved.err());
    out.size(moved.unwrap_or(0));
    out.hex(lent);
    Some(())
}

// revert HEX ROOM: NO PLACE LENGTH HEX
pub(crate) fn revert(words: &mut Words, out: &mut Output) -> Option<()> {
    let mut bytes = [0u8; 70000];
    let size = words.next_bytes(&mut bytes);
    let mut buffer = BUFFER;
    let lent = words.next_room(&mut buffer);
    words.end()?;
    let moved = block::revert(&bytes[..size], lent);
    out.fault(moved.err());
    out.size(moved.unwrap_or(0));
    out.hex(lent);
    Some(())
}
