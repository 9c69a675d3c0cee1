// The stored block of a leap table in its two forms: read with the first fault and its place, written whole or not at all, and moved from one form to the other.
// Its numbers are groups of seven bits, lowest group first, one group to a byte; the top bit marks that more follow.
#![tactic(auto)]

ghost use Rattle.std.specs.Prelude.{◌≡◌, true, cond, Ok, Err, ◌+◌, ◌-◌, ◌<◌, ◌≤◌, ◌^◌, ◌%◌, ltb, length, take, drop};
ghost use Rattle.std.proofs.lemmas.List.Edits.{sets};
ghost use Rattle.std.specs.Int.Signed.{mag};
ghost use Rattle.answer.specs.declared.Refusal.TheVariants.{Table as TABLE};
ghost use Rattle.leap.specs.Leap.{last_entry_month, accepted};
ghost use Rattle.leap.specs.Entries.{first_entry};
ghost use Rattle.leap.specs.Outcomes.{table_read};
ghost use Rattle.leap.specs.Readers.{no_table};
ghost use Rattle.block.specs.Numbers.{number_bytes};
ghost use Rattle.block.specs.Blocks.{step_number, opening, block_in, write_in, write_in_after, write_block, write_block_after, write_new_block, write_new_block_after};
ghost use Rattle.block.specs.Faults.{within, gap_fine};
ghost use Rattle.block.specs.Reading.{above, read_groups, read_number, number_at, offset_after, read_entries, in_block, in_form, behind, beginning, answered, read_in, read_block, read_new_block, form_of, read_either};
ghost use Rattle.block.specs.Moves.{move, move_after, renew, renew_after, revert, revert_after};

use answer::{Fault, Refusal};
use leap::Table;

// The new form opens with the number 0 and that of the month that the table is vouched for; then comes the old form.
#[derive(Clone, Copy)]
pub enum Form {
    Old,
    New,
}

// ---- a number, and how many bytes it has

// The seven bits of a group.
fn group(byte: u8) -> u32
    ensures { result ≡ byte % 128 }
{
    (byte & 0x7f) as u32
}

// A number whose first group is that of `first`, with the mark for more: `s` is what follows.
fn read_long(first: u8, s: &[u8]) -> Result<(u32, usize), Refusal>
    ensures { result ≡ above (first % 128) (read_groups 2 s.now) }
{
    match s {
        [] => Err(Refusal::Cut),
        [0, ..] => Err(Refusal::Groups),
        [second @ ..=0x7f, ..] => Ok((group(*second) << 7 | group(first), 2)),
        [second, rest @ ..] => match rest {
            [] => Err(Refusal::Cut),
            [0 | 0x80.., ..] => Err(Refusal::Groups),
            [third, ..] => {
                let high = group(*third) << 7 | group(*second);
                Ok((high << 7 | group(first), 3))
            }
        },
    }
}

// Most numbers have one group: it is looked at first.
fn read_any(s: &[u8]) -> Result<(u32, usize), Refusal>
    ensures { result ≡ read_groups 3 s.now }
{
    match s {
        [] => Err(Refusal::Cut),
        [byte @ ..=0x7f, ..] => Ok((group(*byte), 1)),
        [byte, rest @ ..] => read_long(*byte, rest),
    }
}

// A number that was read, by its own test.
fn tested(fine: bool, number: (u32, usize)) -> Result<(u32, usize), Refusal>
    ensures { result ≡ cond fine (Ok number) (Err TABLE) }
{
    if fine {
        Ok(number)
    } else {
        Err(Refusal::Table)
    }
}

// The number with which `s` begins, which is to be from `least` to `most`.
fn read_number(s: &[u8], least: u32, most: u32) -> Result<(u32, usize), Refusal>
    ensures { result ≡ read_number (within least most) s.now }
{
    let (n, size) = read_any(s)?;
    tested((least..=most).contains(&n), (n, size))
}

// The number of the entry after one of month `before`: a gap of at least a month, and no month past December 9999.
fn read_gap(s: &[u8], before: u32) -> Result<(u32, usize), Refusal>
    requires { before ≤ last_entry_month }
    ensures { result ≡ read_number (gap_fine before) s.now }
{
    let (n, size) = read_any(s)?;
    let gap = n / 2;
    tested(0 < gap && before + gap <= leap::LAST_ENTRY_MONTH, (n, size))
}

// What was read as a number at this place, which is that of a fault.
fn number_at(at: usize, read: Result<(u32, usize), Refusal>) -> Result<(u32, usize), Fault>
    ensures { result ≡ number_at at read }
{
    read.map_err(|why| Fault { why, at })
}

// Stores `n` at `at`, and gives the place after it.
fn write_number(n: u32, out: &mut [u8], at: usize) -> usize
    requires n_bound { n < 128 ^ 3 }
    requires n_in_bounds { at + length (number_bytes n) ≤ length out.old }
    ensures value { result ≡ at + length (number_bytes n) }
    ensures out_after { out.new ≡ sets out.old at (number_bytes n) }
{
    let mut left = n;
    let mut i = at;
    // while: the number is shifted until one group is left.
    while 0x7f < left {
        out[i] = (left & 0x7f) as u8 | 0x80;
        left = left >> 7;
        i += 1;
    }
    out[i] = left as u8;
    i + 1
}

// ---- reading

// The offset after `before`, by the number's lowest bit.
fn next_offset(before: i32, n: u32) -> i32
    requires { mag before < 1000 }
    ensures { result ≡ offset_after before n }
{
    if n % 2 == 0 { before + 1 } else { before - 1 }
}

// Into a table of nothing: of `count` entries, vouched for up to the month of this number, those after the first, from place `start` on.
// The table is lent, since one that is handed back by value is copied.
fn read_entries(
    s: &[u8],
    count: usize,
    start: usize,
    vouched: u32,
    t: &mut Table,
) -> Result<(), Fault>
    requires start_in_bounds { (start ≤ length s.now) × (0 < count) × (count ≤ 64) }
    requires nothing_yet { t.old ≡ no_table }
    ensures { answered result t.new ≡ table_read (read_entries vouched (count - 1) first_entry start (drop start s.now)) }
{
    t.offsets[0] = 10;
    let mut at = start;
    // An index: each entry is made from the one before it, in two arrays.
    for k in 1..count {
        let before = t.months[k - 1];
        let (n, size) = number_at(at, read_gap(&s[at..], before))?;
        t.months[k] = before + n / 2;
        t.offsets[k] = next_offset(t.offsets[k - 1], n);
        at += size;
    }
    if at < s.len() {
        return Err(Fault {
            why: Refusal::Tail,
            at,
        });
    }
    // Said last of all, behind a tail.
    if !leap::vouched_right(t.months[count - 1], vouched) {
        return Err(Fault {
            why: Refusal::Table,
            at: 1,
        });
    }
    t.count = count;
    t.vouched = vouched;
    Ok(())
}

// The old block at place `start`, vouched for up to the month of this number.
fn read_from(s: &[u8], start: usize, vouched: u32, t: &mut Table) -> Result<(), Fault>
    requires start_in_bounds { start ≤ length s.now }
    requires nothing_yet { t.old ≡ no_table }
    ensures { answered result t.new ≡ table_read (in_block vouched start (drop start s.now)) }
{
    let (count, size) = number_at(start, read_number(&s[start..], 1, 64))?;
    read_entries(s, count as usize, start + size, vouched, t)
}

// Where the old block begins, and the number of the month that is given before it.
fn read_opening(form: Form, s: &[u8]) -> Result<(usize, u32), Fault>
    ensures { (behind result s.now ≡ in_form form s.now) × (beginning result ≤ length s.now) }
{
    match form {
        Form::Old => Ok((0, 0)),
        Form::New => {
            read_number(s, 0, 0)?;
            let month = read_number(&s[1..], 0, leap::LAST_ENTRY_MONTH + 1);
            let (vouched, size) = number_at(1, month)?;
            Ok((1 + size, vouched))
        }
    }
}

// A whole block of either form, into a table of nothing.
fn read_whole(form: Form, s: &[u8], t: &mut Table) -> Result<(), Fault>
    requires { t.old ≡ no_table }
    ensures { answered result t.new ≡ read_in form s.now }
{
    let (start, vouched) = read_opening(form, s)?;
    read_from(s, start, vouched, t)
}

// The table of a block, with the month that a new one has, or the first fault and its place.
fn read_in(form: Form, s: &[u8]) -> Result<Table, Fault>
    ensures { result ≡ read_in form s.now }
{
    let mut table = Table::empty();
    read_whole(form, s, &mut table)?;
    Ok(table)
}

pub fn read_block(s: &[u8]) -> Result<Table, Fault>
    ensures { result ≡ read_block s.now }
{
    read_in(Form::Old, s)
}

pub fn read_new_block(s: &[u8]) -> Result<Table, Fault>
    ensures { result ≡ read_new_block s.now }
{
    read_in(Form::New, s)
}

// Told by the first number: that of a new block is 0, which is the byte 0.
fn form_of(s: &[u8]) -> Form
    ensures { result ≡ form_of s.now }
{
    match s {
        [0, ..] => Form::New,
        _ => Form::Old,
    }
}

// The table of a block of either form.
pub fn read_either(s: &[u8]) -> Result<Table, Fault>
    ensures { result ≡ read_either s.now }
{
    read_in(form_of(s), s)
}

// ---- writing

// Twice the months from an entry to the next, plus 1 where the step is -1.
fn step_number(month: u32, offset: i32, next_month: u32, next_offset: i32) -> u32
    requires { (month ≤ next_month) × (next_month ≤ last_entry_month) }
    ensures { result ≡ step_number (month, offset) (next_month, next_offset) }
{
    let gap = next_month - month;
    if next_offset < offset {
        gap * 2 + 1
    } else {
        gap * 2
    }
}

// Stores what opens a block, and gives the place after it.
fn open_block(form: Form, vouched: u32, out: &mut [u8]) -> usize
    requires { (vouched < 128 ^ 3) × (4 ≤ length out.old) }
    ensures { (result ≡ length (opening form vouched)) × (out.new ≡ sets out.old 0 (opening form vouched)) }
{
    match form {
        Form::Old => 0,
        Form::New => {
            let at = write_number(0, out, 0);
            write_number(vouched, out, at)
        }
    }
}

// A table's block, in the front of these bytes: the opening has at most two numbers, of four bytes, and a table at most 64, of three each.
fn block_in<'a>(form: Form, t: &Table, bytes: &'a mut [u8; 196]) -> &'a [u8]
    requires { accepted t.now ≡ true }
    ensures { result.now ≡ block_in form t.now }
{
    let start = open_block(form, t.vouched, bytes);
    let mut len = write_number(t.count as u32, bytes, start);
    // An index: each entry stands beside the one before it, in two arrays.
    for k in 1..t.count {
        let n = step_number(t.months[k - 1], t.offsets[k - 1], t.months[k], t.offsets[k]);
        len = write_number(n, bytes, len);
    }
    &bytes[..len]
}

// Writes a table's block to the front of `out`, and gives its length.
fn write_in(form: Form, t: &Table, out: &mut [u8]) -> Result<usize, Refusal>
    ensures { (result ≡ write_in form t.now out.old) × (out.new ≡ write_in_after form t.now out.old) }
{
    if !t.is_accepted() {
        return Err(Refusal::Table);
    }
    let mut bytes = [0; 196];
    answer::write(block_in(form, t, &mut bytes), out)
}

pub fn write_block(t: &Table, out: &mut [u8]) -> Result<usize, Refusal>
    ensures { (result ≡ write_block t.now out.old) × (out.new ≡ write_block_after t.now out.old) }
{
    write_in(Form::Old, t, out)
}

pub fn write_new_block(t: &Table, out: &mut [u8]) -> Result<usize, Refusal>
    ensures { (result ≡ write_new_block t.now out.old) × (out.new ≡ write_new_block_after t.now out.old) }
{
    write_in(Form::New, t, out)
}

// ---- moving

// Writes what a block holds in the other form, vouched for up to the month of this number.
// A refusal of the writing is about no byte of the block: its place is 0.
fn rewrite(from: Form, to: Form, vouched: u32, s: &[u8], out: &mut [u8]) -> Result<usize, Fault>
    ensures { (result ≡ move from to vouched s.now out.old) × (out.new ≡ move_after from to vouched s.now out.old) }
{
    let mut table = Table::empty();
    read_whole(from, s, &mut table)?;
    table.vouched = vouched;
    Ok(write_in(to, &table, out)?)
}

// The old block as a new one, vouched for up to the month of this number, 0 for none.
pub fn renew(s: &[u8], vouched: u32, out: &mut [u8]) -> Result<usize, Fault>
    ensures { (result ≡ renew s.now vouched out.old) × (out.new ≡ renew_after s.now vouched out.old) }
{
    rewrite(Form::Old, Form::New, vouched, s, out)
}

// The new block as an old one, which has no month.
pub fn revert(s: &[u8], out: &mut [u8]) -> Result<usize, Fault>
    ensures { (result ≡ revert s.now out.old) × (out.new ≡ revert_after s.now out.old) }
{
    rewrite(Form::New, Form::Old, 0, s, out)
}
