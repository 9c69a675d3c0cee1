// Tables taken from words, and read and told in numbers.
use crate::calls::Form;
use crate::output::Output;
use crate::words::Words;
use answer::Fault;
use leap::Table;

// table COUNT K M O M O ..
pub(crate) fn take_table(words: &mut Words, t: &mut Table, out: &mut Output) -> Option<()> {
    let count = words.next_number(u64::MAX) as usize;
    let used = words.next_number(64) as usize;
    let mut months = [0u32; 64];
    let mut offsets = [0i32; 64];
    for (month, offset) in months.iter_mut().zip(offsets.iter_mut()).take(used) {
        *month = words.next_u32();
        *offset = words.next_i32();
    }
    words.end()?;
    *t = Table::new(count, months, offsets, 0);
    out.text(b"ok");
    Some(())
}

// vouch N
pub(crate) fn vouch(words: &mut Words, t: &mut Table, out: &mut Output) -> Option<()> {
    let number = words.next_u32();
    words.end()?;
    t.vouched = number;
    out.text(b"ok");
    Some(())
}

// One more than the last place that is not zero.
fn places_used(t: &Table) -> usize {
    let mut used = 0;
    for (k, (month, offset)) in t.months.iter().zip(&t.offsets).enumerate() {
        if *month != 0 || *offset != 0 {
            used = k + 1;
        }
    }
    used
}

fn read_bytes(form: Form, bytes: &[u8]) -> Result<Table, Fault> {
    match form {
        Form::Block => block::read_block(bytes),
        Form::NewBlock => block::read_new_block(bytes),
        Form::Kernel => kernel::read_kernel(bytes),
        Form::Cards => cards::read_cards(bytes),
    }
}

// read_block HEX, read_new_block HEX, read_kernel HEX, read_cards HEX: NO PLACE COUNT K M O .., with VOUCHED before the K of a new block.
pub(crate) fn read_table(form: Form, words: &mut Words, out: &mut Output) -> Option<()> {
    let mut bytes = [0u8; 70000];
    let size = words.next_bytes(&mut bytes);
    words.end()?;
    let read = read_bytes(form, &bytes[..size]);
    let t = read.unwrap_or(Table::empty());
    out.fault(read.err());
    out.size(t.count);
    if form == Form::NewBlock {
        out.number(i64::from(t.vouched));
    }
    let used = places_used(&t);
    out.size(used);
    for (month, offset) in t.months.iter().zip(&t.offsets).take(used) {
        out.number(i64::from(*month));
        out.number(i64::from(*offset));
    }
    Some(())
}
