// Pictures: the three forms of a text, from fields to bytes and back. A picture knows no table and no scale.
#![tactic(auto)]

ghost use Rattle.std.specs.Prelude.{◌≡◌, ℕ, List, [], ◌++◌, ◌+◌, ◌-◌, ◌≤◌, ◌<◌, cond, length, take, Some, None};
ghost use Rattle.answer.specs.Buffers.{written, buffer_after};
ghost use Rattle.digits.specs.Decimals.{digits_of, number_at};
ghost use Rattle.pictures.specs.Pictures.{date_text, clock_text, fraction_text, picture_text};
ghost use Rattle.pictures.specs.Parts.{Digits, Numbers};
ghost use Rattle.pictures.specs.Reading.{as_shown, like, right_length, has_picture, in_full, fields_in, read_numbered, read_of_year, read_named, read_fields};

use answer::Refusal;
use std::marker::Model;

// The date of a picture: month and day, day of the year, or month by name and day.
#[derive(Clone, Copy, Debug, PartialEq, Eq)]
pub enum Date {
    Numbered(u32, u32),
    OfYear(u32),
    Named(u32, u32),
}

// What a text shows: its date says its picture, and `digits` are those after the point.
#[derive(Clone, Copy, Debug, PartialEq, Eq)]
pub struct Fields {
    pub year: u32,
    pub date: Date,
    pub hour: u32,
    pub minute: u32,
    pub second: u32,
    pub digits: u32,
    pub micro: u32,
}

// ---- from fields to text

// A line that is filled from its front. The longest text has 27 bytes.
#[derive(Drop)]
struct Line {
    bytes: [u8; 27],
    len: usize,
}

// Clauses see the bytes that are put so far.
impl Model for Line {
    ghost Value = { List ℕ };

    ghost view = { λ l. take l.len l.bytes };

    ghost invariant = { λ l. l.len ≤ 27 };
}

impl Line {
    fn new() -> Line
        ensures { result ≡ [] }
    {
        Line {
            bytes: [0; 27],
            len: 0,
        }
    }

    fn put(&mut self, text: &[u8])
        requires { length self.old + length text.now ≤ 27 }
        ensures { self.new ≡ self.old ++ text.now }
    {
        self.len = digits::append(&mut self.bytes, self.len, text);
    }

    // The last W digits of a number.
    fn put_number<const W: usize>(&mut self, n: u32)
        requires few { W ≤ 9 }
        requires room { length self.old + W ≤ 27 }
        ensures { self.new ≡ self.old ++ digits_of W n }
    {
        let nine = digits::digits(n);
        self.put(&nine[9 - W..]);
    }

    // yyyy-mm-ddT, yyyy-dddT, or yyyy MON dd and a blank
    fn put_date(&mut self, year: u32, date: Date)
        requires { length self.old ≤ 15 }
        ensures { self.new ≡ self.old ++ date_text year date }
    {
        self.put_number::<4>(year);
        match date {
            Date::Numbered(month, day) => {
                self.put(b"-");
                self.put_number::<2>(month);
                self.put(b"-");
                self.put_number::<2>(day);
                self.put(b"T");
            }
            Date::OfYear(day) => {
                self.put(b"-");
                self.put_number::<3>(day);
                self.put(b"T");
            }
            Date::Named(month, day) => {
                self.put(b" ");
                self.put(&digits::month_name(month));
                self.put(b" ");
                self.put_number::<2>(day);
                self.put(b" ");
            }
        }
    }

    // hh:mm:ss.uuuuuu
    fn put_clock(&mut self, f: Fields)
        requires { length self.old ≤ 12 }
        ensures { self.new ≡ self.old ++ (clock_text f.hour f.minute f.second ++ fraction_text 6 f.micro) }
    {
        self.put_number::<2>(f.hour);
        self.put(b":");
        self.put_number::<2>(f.minute);
        self.put(b":");
        self.put_number::<2>(f.second);
        self.put(b".");
        self.put_number::<6>(f.micro);
    }

    // Takes the last bytes back.
    fn cut(&mut self, count: usize)
        requires { count ≤ length self.old }
        ensures { self.new ≡ take (length self.old - count) self.old }
    {
        self.len -= count;
    }

    fn text(&self) -> &[u8]
        ensures { result.now ≡ self.now }
    {
        &self.bytes[..self.len]
    }
}

// How many bytes of a clock in full are not shown.
fn hidden(digits: u32) -> usize
    ensures { (digits ≡ 0 → result ≡ 7) × (0 < digits → result ≡ 6 - digits) × (result ≤ 7) }
{
    match digits {
        0 => 7,
        1..=6 => 6 - digits as usize,
        _ => 0,
    }
}

// Writes the text of fields to the front of a lent buffer. Its clock is put in full first: a copy of one length is faster.
pub fn write_fields(f: Fields, out: &mut [u8]) -> Result<usize, Refusal>
    ensures { (result ≡ written [] (picture_text f) out.old) × (out.new ≡ buffer_after [] (picture_text f) out.old) }
{
    let mut line = Line::new();
    line.put_date(f.year, f.date);
    line.put_clock(f);
    line.cut(hidden(f.digits));
    answer::write(line.text(), out)
}

// ---- from text to fields

// The number that W digits spell. What a digit stands for is its last four bits.
fn number_at<const W: usize>(t: &[u8], i: usize) -> u32
    requires few { W ≤ 6 }
    requires all { Digits t.now i W }
    ensures { result ≡ number_at t.now i W }
{
    let mut n = 0;
    for b in &t[i..i + W] {
        n = n * 10 + (*b % 16) as u32;
    }
    n
}

// A byte is as a pattern shows it.
fn as_shown(c: u8, b: u8) -> bool
    ensures { result ≡ as_shown c b }
{
    match c {
        b'0' => b.is_ascii_digit(),
        b'?' => true,
        _ => c == b,
    }
}

// `&`, and no `all`: a loop without an early exit compiles to vector instructions.
fn is_like(pattern: &[u8], text: &[u8]) -> bool
    requires { length pattern.now ≡ length text.now }
    ensures { result ≡ like pattern.now text.now }
{
    let mut fine = true;
    for (c, b) in pattern.iter().zip(text) {
        fine &= as_shown(*c, *b);
    }
    fine
}

// n bytes, or a point and one to six digits behind them.
fn right_length(n: usize, size: usize) -> bool
    requires { n ≤ 20 }
    ensures { result ≡ right_length n size }
{
    size == n || n + 2 <= size && size <= n + 7
}

// The text with its fraction in full, if it has a pattern's picture.
fn in_full<const N: usize>(pattern: &[u8; N], text: &[u8]) -> Option<[u8; N]>
    requires { (7 ≤ N) × (N ≤ 27) }
    ensures { result ≡ cond (has_picture pattern.now (N - 7) text.now) (Some (in_full pattern.now text.now)) None }
{
    if !right_length(N - 7, text.len()) {
        return None;
    }
    let mut t = *pattern;
    t[..text.len()].copy_from_slice(text);
    if is_like(pattern, &t) { Some(t) } else { None }
}

// The fields of a text in full, with the clock from `at` on; `size` is what the text had.
fn fields_in(t: &[u8], at: usize, size: usize, date: Date) -> Fields
    requires numbers { Numbers t.now at }
    requires short { size ≤ 27 }
    ensures { result ≡ fields_in t.now at (size - (at + 9)) date }
{
    Fields {
        year: number_at::<4>(t, 0),
        date,
        hour: number_at::<2>(t, at),
        minute: number_at::<2>(t, at + 3),
        second: number_at::<2>(t, at + 6),
        digits: size.saturating_sub(at + 9) as u32,
        micro: number_at::<6>(t, at + 9),
    }
}

// Three readers, no generic one: what is left differs in the places of the date, and each has its own definition.
fn read_numbered(text: &[u8]) -> Option<Fields>
    ensures { result ≡ read_numbered text.now }
{
    let t = in_full(b"0000-00-00T00:00:00.000000", text)?;
    let date = Date::Numbered(number_at::<2>(&t, 5), number_at::<2>(&t, 8));
    Some(fields_in(&t, 11, text.len(), date))
}

fn read_of_year(text: &[u8]) -> Option<Fields>
    ensures { result ≡ read_of_year text.now }
{
    let t = in_full(b"0000-000T00:00:00.000000", text)?;
    let date = Date::OfYear(number_at::<3>(&t, 5));
    Some(fields_in(&t, 9, text.len(), date))
}

fn read_named(text: &[u8]) -> Option<Fields>
    ensures { result ≡ read_named text.now }
{
    let t = in_full(b"0000 ??? 00 00:00:00.000000", text)?;
    let month = digits::month_named(t[5], t[6], t[7]);
    if month < 1 {
        return None;
    }
    let date = Date::Named(month, number_at::<2>(&t, 9));
    Some(fields_in(&t, 12, text.len(), date))
}

// What a text shows, if it has a picture.
pub fn read_fields(text: &[u8]) -> Option<Fields>
    ensures { result ≡ read_fields text.now }
{
    read_numbered(text)
        .or_else(|| read_of_year(text))
        .or_else(|| read_named(text))
}
