// A leap table in words, and loaded anew: from a block in hex, from a kernel or cards, or vouched for up to a month.
// Every public function is total.
#![tactic(auto)]

ghost use Rattle.std.specs.Prelude.{◌≡◌};
ghost use Rattle.digits.specs.Decimals.{Within};
ghost use Rattle.phrases.specs.Puts.{Puts};
ghost use Rattle.phrases.specs.Replies.{Says};
ghost use Rattle.tablewords.specs.Words.{date_text, offset_text, feed, entries_text, count_text, vouched_words, table_words};
ghost use Rattle.tablewords.specs.Loading.{taking, placed_refusal, loaded_by, load_block, not_read, load_kernel, load_cards, month_number, month_given, vouch, Loads};

use answer::{Fault, Refusal};
use leap::Table;
use phrases::{Said, Wrong};

// What was said, and the table from then on.
#[derive(Clone, Copy)]
pub struct Loaded {
    pub said: Said,
    pub table: Table,
}

// ---- a table in words

// Puts the first day of a month; January 1972 is 0.
fn put_date(out: &mut [u8], at: usize, m: u32) -> usize
    ensures { Puts out.old at (date_text m) result out.new }
{
    let year = digits::digits(1972 + m / 12);
    let month = digits::digits(m % 12 + 1);
    let a = phrases::put(out, at, &year[5..]);
    let b = phrases::put(out, a, b"-");
    let c = phrases::put(out, b, &month[7..]);
    phrases::put(out, c, b"-01")
}

fn put_entry(out: &mut [u8], at: usize, month: u32, offset: i32) -> usize
    ensures { Puts out.old at (offset_text month offset) result out.new }
{
    let a = put_date(out, at, month);
    let b = phrases::put(out, a, b" ");
    let c = phrases::put_signed(out, b, offset as i64);
    phrases::put(out, c, b" s")
}

// Puts the line feed in front of entry k.
fn put_feed(out: &mut [u8], at: usize, k: usize) -> usize
    ensures { Puts out.old at (feed k) result out.new }
{
    if k == 0 {
        return phrases::put(out, at, b"");
    }
    phrases::put(out, at, b"\n")
}

// Puts all entries, a line for each.
pub fn put_entries(t: &Table, out: &mut [u8], at: usize) -> usize
    ensures { Puts out.old at (entries_text t.now) result out.new }
{
    let mut next = phrases::put(out, at, b"");
    for k in 0..t.count.min(64) {
        next = put_feed(out, next, k);
        next = put_entry(out, next, t.months[k], t.offsets[k]);
    }
    next
}

fn put_count(out: &mut [u8], at: usize, n: usize) -> usize
    ensures { Puts out.old at (count_text n) result out.new }
{
    let a = phrases::put_unsigned(out, at, n as u64);
    if n == 1 {
        return phrases::put(out, a, b" entry");
    }
    phrases::put(out, a, b" entries")
}

// Puts the month of this number that a table is vouched for.
fn put_vouched(out: &mut [u8], at: usize, v: u32) -> usize
    ensures { Puts out.old at (vouched_words v) result out.new }
{
    if v < 1 {
        return phrases::put(out, at, b"no month vouched for");
    }
    let m = v - 1;
    let a = phrases::put(out, at, b"vouched to ");
    let b = phrases::put_month(out, a, m % 12 + 1);
    let c = phrases::put(out, b, b" ");
    phrases::put_unsigned(out, c, (1972 + m / 12) as u64)
}

// Puts the table in words.
pub fn put_words(t: &Table, out: &mut [u8], at: usize) -> usize
    ensures { Puts out.old at (table_words t.now) result out.new }
{
    let k = t.count.min(64).saturating_sub(1);
    let a = put_count(out, at, t.count);
    let b = phrases::put(out, a, b", the last ");
    let c = put_date(out, b, t.months[k]);
    let d = phrases::put(out, c, b" with ");
    let e = phrases::put_signed(out, d, t.offsets[k] as i64);
    let f = phrases::put(out, e, b" s, ");
    put_vouched(out, f, t.vouched)
}

// ---- a table that was read

fn refuse_at(out: &mut [u8], at: usize, fault: Fault, given: &[u8]) -> Said
    ensures { Says out.old at (placed_refusal fault given.now) result out.new }
{
    let said = phrases::refuse(out, at, fault.why, given);
    let a = phrases::put(out, said.at, b" at byte ");
    Said {
        at: phrases::put_unsigned(out, a, fault.at as u64),
        good: false,
    }
}

// Says this table, from now on the one in force, in words.
fn take_up(table: Table, out: &mut [u8], at: usize) -> Loaded
    ensures { Loads out.old at (taking table) result out.new }
{
    let said = Said {
        at: put_words(&table, out, at),
        good: true,
    };
    Loaded { said, table }
}

// Says the table that was read, or why none was.
fn loaded_by(given: &[u8], read: Result<Table, Fault>, out: &mut [u8], at: usize) -> Loaded
    ensures { Loads out.old at (loaded_by given.now read) result out.new }
{
    match read {
        Ok(table) => take_up(table, out, at),
        Err(fault) => Loaded {
            said: refuse_at(out, at, fault, given),
            table: Table::empty(),
        },
    }
}

// Loads the table of a block in hex, of either form.
pub fn load_block(hex: &[u8], out: &mut [u8], at: usize) -> Loaded
    ensures { Loads out.old at (load_block hex.now) result out.new }
{
    let mut bytes = [0u8; 512];
    let Some(n) = lines::hex(hex, &mut bytes) else {
        return Loaded {
            said: phrases::refuse_request(out, at, Wrong::NoHex, hex),
            table: Table::empty(),
        };
    };
    let k = lines::front(&bytes, n as usize);
    let read = block::read_either(&bytes[..k]);
    loaded_by(hex, read, out, at)
}

// Says why the file that `given` names is not read.
fn not_read(given: &[u8], number: u32, sentence: u32, out: &mut [u8], at: usize) -> Loaded
    ensures { Loads out.old at (not_read number sentence given.now) result out.new }
{
    Loaded {
        said: phrases::refuse_as(out, at, number, sentence, given),
        table: Table::empty(),
    }
}

// Loads the table of a kernel: `given` names the file, which can be read or not.
pub fn load_kernel(given: &[u8], readable: bool, file: &[u8], out: &mut [u8], at: usize) -> Loaded
    ensures { Loads out.old at (load_kernel given.now readable file.now) result out.new }
{
    if readable {
        return loaded_by(given, kernel::read_kernel(file), out, at);
    }
    not_read(given, 14, 22, out, at)
}

// Loads the table of cards, of a file that is no longer than a kernel may be.
pub fn load_cards(given: &[u8], readable: bool, file: &[u8], out: &mut [u8], at: usize) -> Loaded
    ensures { Loads out.old at (load_cards given.now readable file.now) result out.new }
{
    if !readable {
        return not_read(given, 15, 22, out, at);
    }
    if 65536 < file.len() {
        return not_read(given, 15, 23, out, at);
    }
    loaded_by(given, cards::read_cards(file), out, at)
}

// ---- the month that a table is vouched for

// The number of the month of a year.
fn month_number(year: Option<u64>, month: Option<u64>) -> Option<u64>
    requires { Within 9999 year × Within 12 month }
    ensures { (result ≡ month_number year month) × Within 96336 result }
{
    let y = year?;
    let m = month?;
    if y < 1972 || m < 1 {
        return None;
    }
    Some(12 * (y - 1972) + m)
}

fn month_given(s: &[u8]) -> Option<u64>
    ensures { (result ≡ month_given s.now) × Within 96336 result }
{
    if s.len() != 7 || s[4] != b'-' {
        return None;
    }
    let year = digits::decimal(&s[..4], 9999);
    let month = digits::decimal(&s[5..], 12);
    month_number(year, month)
}

// Vouches for the table up to a month.
pub fn vouch(t: &Table, month: &[u8], out: &mut [u8], at: usize) -> Loaded
    ensures { Loads out.old at (vouch t.now month.now) result out.new }
{
    let Some(v) = month_given(month) else {
        return Loaded {
            said: phrases::refuse_request(out, at, Wrong::NoMonth, month),
            table: *t,
        };
    };
    let vouched = Table::new(t.count, t.months, t.offsets, v as u32);
    if !vouched.is_accepted() {
        return Loaded {
            said: phrases::refuse(out, at, Refusal::Table, month),
            table: *t,
        };
    }
    take_up(vouched, out, at)
}
