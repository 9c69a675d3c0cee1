// A leap table as C has it, 130 words of 32 bits, both ways.
#![tactic(auto)]

ghost use Rattle.std.specs.Prelude.{◌≡◌, map, length};
ghost use Rattle.laws.specs.Placed.{place};
ghost use Rattle.words.specs.Words.{offset_from, offset_word, words_at, table_from, table_words};

use leap::Table;

// ---- a table out of its words

fn months_of(words: &[u32; 130]) -> [u32; 64]
    ensures { result ≡ words_at 1 64 words.now }
{
    let mut months = [0; 64];
    months.copy_from_slice(&words[1..65]);
    months
}

// An index, as in store_offsets: array::from_fn says only that some closure gave each element, and zip over iter_mut nothing of what was written.
fn offsets_of(words: &[u32; 130]) -> [i32; 64]
    ensures { result ≡ map offset_from (words_at 65 64 words.now) }
{
    let mut offsets = [0; 64];
    for k in 0..64 {
        offsets[k] = words[65 + k].cast_signed();
    }
    offsets
}

#[tactic(auto, unfolding(crate::specs::Words::table_from))]
pub fn table_of(words: &[u32; 130]) -> Table
    ensures { result ≡ table_from words.now }
{
    let count = words[0] as usize;
    Table::new(count, months_of(words), offsets_of(words), words[129])
}

// ---- and back

// Arrays by value: of lent ones the compiler does not see that they lie apart from `out`, calls memmove and compares addresses.
fn store_months(months: [u32; 64], out: &mut [u32; 130])
    ensures { out.new ≡ place out.old 1 months }
{
    out[1..65].copy_from_slice(&months);
}

fn store_offsets(offsets: [i32; 64], out: &mut [u32; 130])
    ensures { out.new ≡ place out.old 65 (map offset_word offsets) }
{
    for k in 0..64 {
        out[65 + k] = offsets[k].cast_unsigned();
    }
}

// A word has 32 bits, and so a count its lowest 32.
pub fn store_table(t: &Table, out: &mut [u32; 130])
    ensures { out.new ≡ table_words t.now }
{
    out[0] = (t.count % 4294967296) as u32;
    store_months(t.months, out);
    store_offsets(t.offsets, out);
    out[129] = t.vouched;
}
