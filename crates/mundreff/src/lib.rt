// The calls of include/mundreff.h: each answers the refusal's number, 0 on success, and writes every output on every call. `mundreff_c` exports them.
// A call takes the table out of its words, asks the crate whose work it is, and stores what `Answers` of specs/ says of the answer.
#![tactic(auto)]

ghost use Rattle.std.specs.Prelude.{◌≡◌};
ghost use Rattle.answer.specs.Buffers.{written_results};
ghost use Rattle.answer.specs.Marks.{marks as marks_number};
ghost use Rattle.leap.specs.Leap.{bulletin_c};
ghost use Rattle.labels.specs.Labels.{fields};
ghost use Rattle.stamp.specs.Marks.{instant_of_marked, stamp_of_marked};
ghost use Rattle.clock.specs.Marks.{start_marked, tick_marked};
ghost use Rattle.block.specs.Reading.{read_block, read_new_block};
ghost use Rattle.block.specs.Moves.{move_results, renew, renew_after, revert, revert_after};
ghost use Rattle.text.specs.Text.{write_text_after};
ghost use Rattle.text.specs.Marks.{read_text_marked, write_text_marked};
ghost use Rattle.julian.specs.Marks.{write_julian_marked, read_julian_marked};
ghost use Rattle.words.specs.Words.{table_from, table_words};
ghost use Rattle.mundreff.specs.Answers.{given, given_at, table_numbers, stamp_fields, instant_with_marks, stamp_with_marks, text_with_marks, length_with_marks, label_with_marks, pair_with_marks};
ghost use Rattle.block.specs.Blocks.{write_block, write_block_after, write_new_block, write_new_block_after};
ghost use Rattle.kernel.specs.Reading.{read_kernel};
ghost use Rattle.kernel.specs.Writing.{write_kernel, write_kernel_after};
ghost use Rattle.cards.specs.Reading.{read_cards};
ghost use Rattle.cards.specs.Writing.{write_cards, write_cards_after};
ghost use Rattle.mundreff.specs.Calls.{label_from, scale_from, reading_from, pair};

use answer::{Fault, Marked, Refusal};
use julian::JulianDate;
use labels::{Label, Reading};
use leap::Table;
use stamp::{Scale, Stamp};
use words::{store_table, table_of};

// ---- what C hands over

fn label_of(numbers: &[u32; 6]) -> Label
    ensures { result ≡ label_from 0 numbers.now }
{
    let [year, month, day, hour, minute, second] = *numbers;
    Label {
        year,
        month,
        day,
        hour,
        minute,
        second,
    }
}

fn reading_of(stamp: &[u32; 8]) -> Reading
    ensures { result ≡ reading_from stamp.now }
{
    // Each by its name: `label @ ..` in a lent array gets no proof.
    let [_, year, month, day, hour, minute, second, micro] = *stamp;
    let label = label_of(&[year, month, day, hour, minute, second]);
    Reading { label, micro }
}

// ---- what C is handed: each `give_` stores the values of an answer, zero on a refusal, with its marks where it has any, and returns its number

const NO_LABEL: Label = Label {
    year: 0,
    month: 0,
    day: 0,
    hour: 0,
    minute: 0,
    second: 0,
};

const NO_STAMP: Stamp = Stamp {
    scale: Scale::Utc,
    reading: Reading {
        label: NO_LABEL,
        micro: 0,
    },
};

const NO_DATE: JulianDate = JulianDate {
    midnight: 0.0,
    fraction: 0.0,
};

fn store_label(l: Label, out: &mut [u32; 6])
    ensures { out.new ≡ fields l }
{
    *out = [l.year, l.month, l.day, l.hour, l.minute, l.second];
}

fn store_stamp(z: Stamp, out: &mut [u32; 8])
    ensures { out.new ≡ stamp_fields z }
{
    let Reading { label: l, micro } = z.reading;
    *out = [
        u32::from(z.scale),
        l.year,
        l.month,
        l.day,
        l.hour,
        l.minute,
        l.second,
        micro,
    ];
}

// The number of an answer, 0 on success, and its value, or what stands for the value of a refusal.
fn given<T: Copy>(answer: Result<T, Refusal>, none: T) -> (u32, T)
    ensures { result ≡ given none answer }
{
    match answer {
        Ok(x) => (0, x),
        Err(why) => (u32::from(why), none),
    }
}

// The same, and the marks are stored.
fn given_marked<T: Copy>(a: Marked<T>, none: T, marks: &mut u32) -> (u32, T)
    ensures value { result ≡ given none a.answer }
    ensures marks_after { marks.new ≡ marks_number a.beyond }
{
    *marks = answer::marks_of(a.beyond);
    given(a.answer, none)
}

// The same of an answer that may be a fault: its number, its place and its value.
fn given_at<T: Copy>(answer: Result<T, Fault>, none: T) -> (u32, usize, T)
    ensures { result ≡ given_at none answer }
{
    match answer {
        Ok(x) => (0, 0, x),
        Err(Fault { why, at }) => (u32::from(why), at, none),
    }
}

fn give_length(a: Result<usize, Refusal>, out: &mut usize) -> u32
    ensures { (result, out.new) ≡ written_results a }
{
    let (number, n) = given(a, 0);
    *out = n;
    number
}

fn give_instant(a: Marked<i64>, out: &mut i64, marks: &mut u32) -> u32
    ensures { (result, out.new, marks.new) ≡ instant_with_marks a }
{
    let (number, x) = given_marked(a, 0, marks);
    *out = x;
    number
}

fn give_stamp(a: Marked<Stamp>, out: &mut [u32; 8], marks: &mut u32) -> u32
    ensures { (result, out.new, marks.new) ≡ stamp_with_marks a }
{
    let (number, z) = given_marked(a, NO_STAMP, marks);
    store_stamp(z, out);
    number
}

fn give_text(
    a: Marked<(i64, Stamp)>,
    instant: &mut i64,
    stamp: &mut [u32; 8],
    marks: &mut u32,
) -> u32
    ensures { (result, instant.new, stamp.new, marks.new) ≡ text_with_marks a }
{
    let (number, (x, z)) = given_marked(a, (0, NO_STAMP), marks);
    *instant = x;
    store_stamp(z, stamp);
    number
}

fn give_label(a: Marked<Label>, out: &mut [u32; 6], marks: &mut u32) -> u32
    ensures { (result, out.new, marks.new) ≡ label_with_marks a }
{
    let (number, l) = given_marked(a, NO_LABEL, marks);
    store_label(l, out);
    number
}

fn give_pair(a: Marked<JulianDate>, midnight: &mut f64, fraction: &mut f64, marks: &mut u32) -> u32
    ensures { (result, midnight.new, fraction.new, marks.new) ≡ pair_with_marks a }
{
    let (number, date) = given_marked(a, NO_DATE, marks);
    *midnight = date.midnight;
    *fraction = date.fraction;
    number
}

fn give_table(a: Result<Table, Fault>, place: &mut usize, table: &mut [u32; 130]) -> u32
    ensures { (result, place.new, table.new) ≡ table_numbers a }
{
    match a {
        Ok(t) => {
            *place = 0;
            store_table(&t, table);
            0
        }
        Err(Fault { why, at }) => {
            *place = at;
            store_table(&Table::empty(), table);
            u32::from(why)
        }
    }
}

fn give_move(a: Result<usize, Fault>, place: &mut usize, length: &mut usize) -> u32
    ensures { (result, place.new, length.new) ≡ move_results a }
{
    let (number, at, n) = given_at(a, 0);
    *place = at;
    *length = n;
    number
}

// ---- the calls

pub fn mundreff_bulletin_c(table: &mut [u32; 130]) -> u32
    ensures { (result ≡ 0) × (table.new ≡ table_words bulletin_c) }
{
    store_table(&leap::bulletin_c(), table);
    0
}

pub fn mundreff_read_block(block: &[u8], place: &mut usize, table: &mut [u32; 130]) -> u32
    ensures { (result, place.new, table.new) ≡ table_numbers (read_block block.now) }
{
    give_table(block::read_block(block), place, table)
}

pub fn mundreff_write_block(table: &[u32; 130], out: &mut [u8], length: &mut usize) -> u32
    ensures length_after { (result, length.new) ≡ written_results (write_block (table_from table.now) out.old) }
    ensures out_after { out.new ≡ write_block_after (table_from table.now) out.old }
{
    give_length(block::write_block(&table_of(table), out), length)
}

pub fn mundreff_read_new_block(block: &[u8], place: &mut usize, table: &mut [u32; 130]) -> u32
    ensures { (result, place.new, table.new) ≡ table_numbers (read_new_block block.now) }
{
    give_table(block::read_new_block(block), place, table)
}

pub fn mundreff_write_new_block(table: &[u32; 130], out: &mut [u8], length: &mut usize) -> u32
    ensures length_after { (result, length.new) ≡ written_results (write_new_block (table_from table.now) out.old) }
    ensures out_after { out.new ≡ write_new_block_after (table_from table.now) out.old }
{
    give_length(block::write_new_block(&table_of(table), out), length)
}

pub fn mundreff_renew(
    block: &[u8],
    vouched: u32,
    out: &mut [u8],
    place: &mut usize,
    length: &mut usize,
) -> u32
    ensures length_after { (result, place.new, length.new) ≡ move_results (renew block.now vouched out.old) }
    ensures out_after { out.new ≡ renew_after block.now vouched out.old }
{
    give_move(block::renew(block, vouched, out), place, length)
}

pub fn mundreff_revert(block: &[u8], out: &mut [u8], place: &mut usize, length: &mut usize) -> u32
    ensures length_after { (result, place.new, length.new) ≡ move_results (revert block.now out.old) }
    ensures out_after { out.new ≡ revert_after block.now out.old }
{
    give_move(block::revert(block, out), place, length)
}

pub fn mundreff_read_kernel(file: &[u8], place: &mut usize, table: &mut [u32; 130]) -> u32
    ensures { (result, place.new, table.new) ≡ table_numbers (read_kernel file.now) }
{
    give_table(kernel::read_kernel(file), place, table)
}

pub fn mundreff_write_kernel(table: &[u32; 130], out: &mut [u8], length: &mut usize) -> u32
    ensures length_after { (result, length.new) ≡ written_results (write_kernel (table_from table.now) out.old) }
    ensures out_after { out.new ≡ write_kernel_after (table_from table.now) out.old }
{
    give_length(kernel::write_kernel(&table_of(table), out), length)
}

pub fn mundreff_read_cards(file: &[u8], place: &mut usize, table: &mut [u32; 130]) -> u32
    ensures { (result, place.new, table.new) ≡ table_numbers (read_cards file.now) }
{
    give_table(cards::read_cards(file), place, table)
}

pub fn mundreff_write_cards(table: &[u32; 130], out: &mut [u8], length: &mut usize) -> u32
    ensures length_after { (result, length.new) ≡ written_results (write_cards (table_from table.now) out.old) }
    ensures out_after { out.new ≡ write_cards_after (table_from table.now) out.old }
{
    give_length(cards::write_cards(&table_of(table), out), length)
}

pub fn mundreff_instant_of(
    table: &[u32; 130],
    stamp: &[u32; 8],
    instant: &mut i64,
    marks: &mut u32,
) -> u32
    ensures { (result, instant.new, marks.new) ≡ instant_with_marks (instant_of_marked (table_from table.now) (scale_from stamp.now) (reading_from stamp.now)) }
{
    let a = stamp::instant_of(&table_of(table), stamp[0], reading_of(stamp));
    give_instant(a, instant, marks)
}

pub fn mundreff_stamp_of(
    table: &[u32; 130],
    instant: i64,
    scale: u32,
    stamp: &mut [u32; 8],
    marks: &mut u32,
) -> u32
    ensures { (result, stamp.new, marks.new) ≡ stamp_with_marks (stamp_of_marked (table_from table.now) instant scale) }
{
    let a = stamp::stamp_of(&table_of(table), instant, scale);
    give_stamp(a, stamp, marks)
}

pub fn mundreff_read_text(
    table: &[u32; 130],
    scale: u32,
    text: &[u8],
    instant: &mut i64,
    stamp: &mut [u32; 8],
    marks: &mut u32,
) -> u32
    ensures { (result, instant.new, stamp.new, marks.new) ≡ text_with_marks (read_text_marked (table_from table.now) scale text.now) }
{
    let a = text::read_text(&table_of(table), scale, text);
    give_text(a, instant, stamp, marks)
}

pub fn mundreff_write_text(
    table: &[u32; 130],
    instant: i64,
    picture: u32,
    scale: u32,
    digits: u32,
    out: &mut [u8],
    length: &mut usize,
    marks: &mut u32,
) -> u32
    ensures marks_after { (result, length.new, marks.new) ≡ length_with_marks (write_text_marked (table_from table.now) instant picture scale digits out.old) }
    ensures out_after { out.new ≡ write_text_after (table_from table.now) instant picture scale digits out.old }
{
    let a = text::write_text(&table_of(table), instant, picture, scale, digits, out);
    let (number, len) = given_marked(a, 0, marks);
    *length = len;
    number
}

pub fn mundreff_write_julian(
    table: &[u32; 130],
    instant: i64,
    scale: u32,
    midnight: &mut f64,
    fraction: &mut f64,
    marks: &mut u32,
) -> u32
    ensures { (result, midnight.new, fraction.new, marks.new) ≡ pair_with_marks (write_julian_marked (table_from table.now) instant scale) }
{
    let a = julian::write_julian(&table_of(table), instant, scale);
    give_pair(a, midnight, fraction, marks)
}

pub fn mundreff_read_julian(
    table: &[u32; 130],
    scale: u32,
    midnight: f64,
    fraction: f64,
    instant: &mut i64,
    marks: &mut u32,
) -> u32
    ensures { (result, instant.new, marks.new) ≡ instant_with_marks (read_julian_marked (table_from table.now) scale (pair midnight fraction)) }
{
    let date = JulianDate { midnight, fraction };
    let a = julian::read_julian(&table_of(table), scale, date);
    give_instant(a, instant, marks)
}

pub fn mundreff_start(table: &[u32; 130], label: &mut [u32; 6], marks: &mut u32) -> u32
    ensures { (result, label.new, marks.new) ≡ label_with_marks (start_marked (table_from table.now)) }
{
    give_label(clock::start(&table_of(table)), label, marks)
}

// The label becomes the next one: with one place for both, a tick in place is what is proved, and no two labels can overlap.
pub fn mundreff_tick_in_place(table: &[u32; 130], label: &mut [u32; 6], marks: &mut u32) -> u32
    ensures { (result, label.new, marks.new) ≡ label_with_marks (tick_marked (table_from table.now) (label_from 0 label.old)) }
{
    give_label(clock::tick(&table_of(table), label_of(label)), label, marks)
}
