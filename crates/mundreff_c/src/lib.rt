// The archive behind include/mundreff.h: each call of the library `mundreff` under its own name, for C to link. Its clauses are those of the library.
#![tactic(auto)]

ghost use Rattle.std.specs.Prelude.{◌≡◌};
ghost use Rattle.answer.specs.Buffers.{written_results};
ghost use Rattle.leap.specs.Leap.{bulletin_c};
ghost use Rattle.stamp.specs.Marks.{instant_of_marked, stamp_of_marked};
ghost use Rattle.clock.specs.Marks.{start_marked, tick_marked};
ghost use Rattle.block.specs.Reading.{read_block, read_new_block};
ghost use Rattle.block.specs.Moves.{move_results, renew, renew_after, revert, revert_after};
ghost use Rattle.text.specs.Text.{write_text_after};
ghost use Rattle.text.specs.Marks.{read_text_marked, write_text_marked};
ghost use Rattle.julian.specs.Marks.{write_julian_marked, read_julian_marked};
ghost use Rattle.words.specs.Words.{table_from, table_words};
ghost use Rattle.mundreff.specs.Answers.{table_numbers, instant_with_marks, stamp_with_marks, text_with_marks, length_with_marks, label_with_marks, pair_with_marks};
ghost use Rattle.block.specs.Blocks.{write_block, write_block_after, write_new_block, write_new_block_after};
ghost use Rattle.kernel.specs.Reading.{read_kernel};
ghost use Rattle.kernel.specs.Writing.{write_kernel, write_kernel_after};
ghost use Rattle.cards.specs.Reading.{read_cards};
ghost use Rattle.cards.specs.Writing.{write_cards, write_cards_after};
ghost use Rattle.mundreff.specs.Calls.{label_from, scale_from, reading_from, pair};

#[unsafe(no_mangle)]
pub extern "C" fn mundreff_bulletin_c(table: &mut [u32; 130]) -> u32
    ensures { (result ≡ 0) × (table.new ≡ table_words bulletin_c) }
{
    mundreff::mundreff_bulletin_c(table)
}

#[unsafe(no_mangle)]
pub extern "C" fn mundreff_read_block(
    block: &[u8],
    place: &mut usize,
    table: &mut [u32; 130],
) -> u32
    ensures { (result, place.new, table.new) ≡ table_numbers (read_block block.now) }
{
    mundreff::mundreff_read_block(block, place, table)
}

#[unsafe(no_mangle)]
pub extern "C" fn mundreff_write_block(
    table: &[u32; 130],
    out: &mut [u8],
    length: &mut usize,
) -> u32
    ensures length_after { (result, length.new) ≡ written_results (write_block (table_from table.now) out.old) }
    ensures out_after { out.new ≡ write_block_after (table_from table.now) out.old }
{
    mundreff::mundreff_write_block(table, out, length)
}

#[unsafe(no_mangle)]
pub extern "C" fn mundreff_read_new_block(
    block: &[u8],
    place: &mut usize,
    table: &mut [u32; 130],
) -> u32
    ensures { (result, place.new, table.new) ≡ table_numbers (read_new_block block.now) }
{
    mundreff::mundreff_read_new_block(block, place, table)
}

#[unsafe(no_mangle)]
pub extern "C" fn mundreff_write_new_block(
    table: &[u32; 130],
    out: &mut [u8],
    length: &mut usize,
) -> u32
    ensures length_after { (result, length.new) ≡ written_results (write_new_block (table_from table.now) out.old) }
    ensures out_after { out.new ≡ write_new_block_after (table_from table.now) out.old }
{
    mundreff::mundreff_write_new_block(table, out, length)
}

#[unsafe(no_mangle)]
pub extern "C" fn mundreff_renew(
    block: &[u8],
    vouched: u32,
    out: &mut [u8],
    place: &mut usize,
    length: &mut usize,
) -> u32
    ensures length_after { (result, place.new, length.new) ≡ move_results (renew block.now vouched out.old) }
    ensures out_after { out.new ≡ renew_after block.now vouched out.old }
{
    mundreff::mundreff_renew(block, vouched, out, place, length)
}

#[unsafe(no_mangle)]
pub extern "C" fn mundreff_revert(
    block: &[u8],
    out: &mut [u8],
    place: &mut usize,
    length: &mut usize,
) -> u32
    ensures length_after { (result, place.new, length.new) ≡ move_results (revert block.now out.old) }
    ensures out_after { out.new ≡ revert_after block.now out.old }
{
    mundreff::mundreff_revert(block, out, place, length)
}

#[unsafe(no_mangle)]
pub extern "C" fn mundreff_read_kernel(
    file: &[u8],
    place: &mut usize,
    table: &mut [u32; 130],
) -> u32
    ensures { (result, place.new, table.new) ≡ table_numbers (read_kernel file.now) }
{
    mundreff::mundreff_read_kernel(file, place, table)
}

#[unsafe(no_mangle)]
pub extern "C" fn mundreff_write_kernel(
    table: &[u32; 130],
    out: &mut [u8],
    length: &mut usize,
) -> u32
    ensures length_after { (result, length.new) ≡ written_results (write_kernel (table_from table.now) out.old) }
    ensures out_after { out.new ≡ write_kernel_after (table_from table.now) out.old }
{
    mundreff::mundreff_write_kernel(table, out, length)
}

#[unsafe(no_mangle)]
pub extern "C" fn mundreff_read_cards(file: &[u8], place: &mut usize, table: &mut [u32; 130]) -> u32
    ensures { (result, place.new, table.new) ≡ table_numbers (read_cards file.now) }
{
    mundreff::mundreff_read_cards(file, place, table)
}

#[unsafe(no_mangle)]
pub extern "C" fn mundreff_write_cards(
    table: &[u32; 130],
    out: &mut [u8],
    length: &mut usize,
) -> u32
    ensures length_after { (result, length.new) ≡ written_results (write_cards (table_from table.now) out.old) }
    ensures out_after { out.new ≡ write_cards_after (table_from table.now) out.old }
{
    mundreff::mundreff_write_cards(table, out, length)
}

#[unsafe(no_mangle)]
pub extern "C" fn mundreff_instant_of(
    table: &[u32; 130],
    stamp: &[u32; 8],
    instant: &mut i64,
    marks: &mut u32,
) -> u32
    ensures { (result, instant.new, marks.new) ≡ instant_with_marks (instant_of_marked (table_from table.now) (scale_from stamp.now) (reading_from stamp.now)) }
{
    mundreff::mundreff_instant_of(table, stamp, instant, marks)
}

#[unsafe(no_mangle)]
pub extern "C" fn mundreff_stamp_of(
    table: &[u32; 130],
    instant: i64,
    scale: u32,
    stamp: &mut [u32; 8],
    marks: &mut u32,
) -> u32
    ensures { (result, stamp.new, marks.new) ≡ stamp_with_marks (stamp_of_marked (table_from table.now) instant scale) }
{
    mundreff::mundreff_stamp_of(table, instant, scale, stamp, marks)
}

#[unsafe(no_mangle)]
pub extern "C" fn mundreff_read_text(
    table: &[u32; 130],
    scale: u32,
    text: &[u8],
    instant: &mut i64,
    stamp: &mut [u32; 8],
    marks: &mut u32,
) -> u32
    ensures { (result, instant.new, stamp.new, marks.new) ≡ text_with_marks (read_text_marked (table_from table.now) scale text.now) }
{
    mundreff::mundreff_read_text(table, scale, text, instant, stamp, marks)
}

#[unsafe(no_mangle)]
pub extern "C" fn mundreff_write_text(
    table: &[u32; 130],
    instant: i64,
    picture: u32,
    scale: u32,
    digits: u32,
    out: &mut [u8],
    length: &mut usize,
    marks: &mut u32,
) -> u32
    ensures marks_after { (result, length.new, marks.new) ≡ length_with_marks (write_text_marked (table_from table.now) instant picture scale digits out.old) }
    ensures out_after { out.new ≡ write_text_after (table_from table.now) instant picture scale digits out.old }
{
    mundreff::mundreff_write_text(table, instant, picture, scale, digits, out, length, marks)
}

#[unsafe(no_mangle)]
pub extern "C" fn mundreff_write_julian(
    table: &[u32; 130],
    instant: i64,
    scale: u32,
    midnight: &mut f64,
    fraction: &mut f64,
    marks: &mut u32,
) -> u32
    ensures { (result, midnight.new, fraction.new, marks.new) ≡ pair_with_marks (write_julian_marked (table_from table.now) instant scale) }
{
    mundreff::mundreff_write_julian(table, instant, scale, midnight, fraction, marks)
}

#[unsafe(no_mangle)]
pub extern "C" fn mundreff_read_julian(
    table: &[u32; 130],
    scale: u32,
    midnight: f64,
    fraction: f64,
    instant: &mut i64,
    marks: &mut u32,
) -> u32
    ensures { (result, instant.new, marks.new) ≡ instant_with_marks (read_julian_marked (table_from table.now) scale (pair midnight fraction)) }
{
    mundreff::mundreff_read_julian(table, scale, midnight, fraction, instant, marks)
}

#[unsafe(no_mangle)]
pub extern "C" fn mundreff_start(table: &[u32; 130], label: &mut [u32; 6], marks: &mut u32) -> u32
    ensures { (result, label.new, marks.new) ≡ label_with_marks (start_marked (table_from table.now)) }
{
    mundreff::mundreff_start(table, label, marks)
}

#[unsafe(no_mangle)]
pub extern "C" fn mundreff_tick_in_place(
    table: &[u32; 130],
    label: &mut [u32; 6],
    marks: &mut u32,
) -> u32
    ensures { (result, label.new, marks.new) ≡ label_with_marks (tick_marked (table_from table.now) (label_from 0 label.old)) }
{
    mundreff::mundreff_tick_in_place(table, label, marks)
}
