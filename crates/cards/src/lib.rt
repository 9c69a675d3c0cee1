// TP cards, 80 columns each: a file of them read into a leap table with the place of its first bad line, and a table written as cards.
// What a card is, is in specs/Card.antt; what a file of them is, in specs/Promise.antt.
#![tactic(auto)]

ghost use Rattle.std.specs.Prelude.{◌≡◌, true, ◌+◌, ◌-◌, ◌≤◌, ◌<◌, leb, length, get_or};
ghost use Rattle.std.specs.Int.Signed.{mag};
ghost use Rattle.digits.specs.Decimals.{digit_value, signed_text};
ghost use Rattle.leap.specs.Leap.{accepted};
ghost use Rattle.leap.specs.Entries.{entries, table_of};
ghost use Rattle.leap.specs.Readers.{judged};
ghost use Rattle.cards.specs.Card.{last_card_month, card_date};
ghost use Rattle.cards.specs.Reading.{blank_or_plain, is_tdt, year_in, date_in, dated, is_marked, rest_right, card_in, kept, kept_card, no_cards, follows, added, turned, read_cards};
ghost use Rattle.cards.specs.Writing.{card_text, cards_of, in_card_years, write_cards, write_cards_after};

use answer::{Fault, Refusal};
use columns::Decimal;
use leap::Table;

// December 2049, the last month that two digits of a year can say.
const LAST_MONTH: u32 = 935;

// ---- the date, for both ways

// Midnight on the first day of a month.
fn date_text(month: u32) -> [u8; 15]
    requires { month ≤ 96335 }
    ensures { result ≡ card_date month }
{
    let y = digits::digits(1972 + month / 12);
    let d = digits::digits(calendar::day_of_year(leap::EPOCH + month, 1) as u32);
    [
        y[7], y[8], d[6], d[7], d[8], b'0', b'0', b'0', b'0', b'0', b'0', b'.', b'0', b'0', b'0',
    ]
}

// ---- reading a card

fn blank_or_plain(s: &[u8]) -> bool
    ensures { result ≡ blank_or_plain s.now }
{
    columns::all_blank(s) || columns::decimal_in(s).is_some()
}

// 32.184 has three places behind its point, or more that are zero.
fn is_tdt(shown: Option<Decimal>) -> bool
    ensures { result ≡ is_tdt shown }
{
    match shown {
        Some(
            Decimal {
                minus: false,
                number,
                places: places @ 3..,
            },
        ) => columns::whole(number, places - 3) == Some(32184),
        _ => false,
    }
}

fn digit_at(s: &[u8], i: usize) -> u32
    ensures { (result ≡ digit_value (get_or s.now i 0)) × (result ≤ 9) }
{
    digits::digit_value(digits::byte_at(s, i)) as u32
}

// Two digits of a year: 50 to 99 are of the 1900s, 00 to 49 of the 2000s.
fn year_in(s: &[u8]) -> u32
    ensures { (result ≡ year_in s.now) × (result ≤ 2049) }
{
    let yy = digit_at(s, 0) * 10 + digit_at(s, 1);
    if yy < 50 { 2000 + yy } else { 1900 + yy }
}

// The month of a date: guessed from its digits, and its text compared.
fn date_in(s: &[u8]) -> Option<u32>
    ensures { result ≡ date_in s.now }
{
    let year = year_in(s);
    if year < 1972 {
        return None;
    }
    let day = (digit_at(s, 2) * 10 + digit_at(s, 3)) * 10 + digit_at(s, 4);
    let month = 12 * (year - 1972) + day / 30;
    if LAST_MONTH < month {
        return None;
    }
    check::same(&date_text(month), s).then_some(month)
}

fn is_marked(a: u8, b: u8, c: u8) -> bool
    ensures { result ≡ is_marked a b c }
{
    matches!(a, b' ' | b'1') && (b == b'T' && c == b'P')
}

// All but TAI-UTC and the date.
#[tactic(auto, unfolding(crate::specs::Reading::rest_right))]
fn rest_right(line: &[u8]) -> bool
    requires { length line.now ≡ 80 }
    ensures { result ≡ rest_right line.now }
{
    is_marked(line[0], line[78], line[79])
        && (blank_or_plain(&line[16..31])
            && (blank_or_plain(&line[31..46]) && is_tdt(columns::decimal_in(&line[46..61]))))
}

// No table has an offset of 1000 or more, so no more of it is kept.
fn cut(n: u64) -> u16
    ensures { result ≡ kept n }
{
    n.min(1000) as u16
}

// The entry of a card, from its date and its TAI-UTC.
fn entry_of(date: Option<u32>, shown: Option<Decimal>) -> Option<(u32, i32)>
    ensures { result ≡ kept_card (dated date shown) }
{
    let month = date?;
    let Decimal {
        minus,
        number,
        places,
    } = shown?;
    let size = columns::whole(number, places)?;
    Some((month, digits::with_sign(minus, cut(size))))
}

#[tactic(auto, unfolding(crate::specs::Reading::card_in))]
fn card_in(line: &[u8]) -> Option<(u32, i32)>
    ensures { result ≡ kept_card (card_in line.now) }
{
    if line.len() == 80 && rest_right(line) {
        entry_of(date_in(&line[61..76]), columns::decimal_in(&line[1..16]))
    } else {
        None
    }
}

// ---- reading a file

// The cards of a file so far: their entries in its order, whether they fall, and the month of the last.
// From the 65th on they are no longer counted, since no table has so many.
#[derive(Clone, Copy)]
struct Deck {
    table: Table,
    falling: bool,
    last: u32,
}

impl Deck {
    fn new() -> Deck
        ensures { result ≡ no_cards }
    {
        Deck {
            table: Table::empty(),
            falling: false,
            last: 0,
        }
    }

    // The first two cards decide whether the dates rise or fall.
    #[tactic(auto, unfolding(crate::specs::Reading::follows))]
    fn goes_on(&self, month: u32) -> bool
        ensures { result ≡ follows self.now.table.count self.now.falling self.now.last month }
    {
        match self.table.count {
            0 => true,
            1 => month != self.last,
            _ if self.falling => month < self.last,
            _ => self.last < month,
        }
    }

    fn add(&mut self, month: u32, offset: i32)
        ensures { self.new ≡ added month offset self.old }
    {
        let n = self.table.count;
        if n < 64 {
            self.table.months[n] = month;
            self.table.offsets[n] = offset;
            self.table.count = n + 1;
        } else {
            self.table.count = 65;
        }
        self.falling = month < self.last;
        self.last = month;
    }

    // The table of the cards from the last to the first: past them all is zero.
    fn turned(&self) -> Table
        requires few { self.now.table.count ≤ 64 }
        requires no_more { self.now.table ≡ table_of (entries self.now.table) }
        ensures { result ≡ turned true self.now.table }
    {
        let n = self.table.count;
        let mut months = self.table.months;
        let mut offsets = self.table.offsets;
        months[..n].reverse();
        offsets[..n].reverse();
        Table::new(n, months, offsets, 0)
    }

    // The entries oldest first, judged as a table.
    fn judge(&self) -> Result<Table, Fault>
        requires { self.now.table.count ≤ 64 → self.now.table ≡ table_of (entries self.now.table) }
        ensures { result ≡ judged (turned self.now.falling self.now.table) }
    {
        if self.falling && self.table.count <= 64 {
            leap::judge(&self.turned())
        } else {
            leap::judge(&self.table)
        }
    }
}

// The table of a file of cards, or the first bad line and its place.
pub fn read_cards(s: &[u8]) -> Result<Table, Fault>
    ensures { result ≡ read_cards s.now }
{
    let mut deck = Deck::new();
    let mut from = 0;
    // while: a line's place is where the one before it ended, which is found as it is read.
    while from < s.len() {
        let at = from;
        let end = lines::until(s, at, b'\n');
        from = s.len().min(end + 1);
        let line = &s[at..end];
        if !columns::passed_over(line) {
            match card_in(line) {
                Some((month, offset)) if deck.goes_on(month) => deck.add(month, offset),
                _ => {
                    return Err(Fault {
                        why: Refusal::Card,
                        at,
                    });
                }
            }
        }
    }
    deck.judge()
}

// ---- writing

// How many bytes a number below 99 in size has.
fn signed_width(z: i32) -> usize
    requires { mag z < 99 }
    ensures { result ≡ length (signed_text z) }
{
    // No match: its arms name no fact that the proof could take.
    if z < -9 {
        3
    } else if z < 0 {
        2
    } else if z < 10 {
        1
    } else {
        2
    }
}

// A blank card with its fields stored at their columns. TAI-UTC ends with column 16.
fn image(month: u32, offset: i32) -> [u8; 80]
    requires { (month ≤ last_card_month) × (mag offset < 99) }
    ensures { result ≡ card_text (month, offset) }
{
    let mut card = [b' '; 80];
    let date = date_text(month);
    digits::append_signed(&mut card, 14 - signed_width(offset), offset as i64);
    digits::append(&mut card, 14, b".0");
    digits::append(&mut card, 54, b"32.184");
    digits::append(&mut card, 61, &date);
    digits::append(&mut card, 78, b"TP");
    card
}

// A table's cards, in the front of these bytes: 81 for each of up to 64 entries.
fn cards_of<'a>(t: &Table, bytes: &'a mut [u8; 5184]) -> &'a [u8]
    requires { (accepted t.now ≡ true) × (in_card_years (entries t.now) ≡ true) }
    ensures { result.now ≡ cards_of t.now }
{
    let mut len = 0;
    // An index: an entry lies in two arrays.
    for k in 0..t.count {
        let card = image(t.months[k], t.offsets[k]);
        len = digits::append(bytes, len, &card);
        len = digits::append(bytes, len, b"\n");
    }
    &bytes[..len]
}

// No entry is later than a card can say: the last entry of an accepted table is its latest.
fn in_card_years(t: &Table) -> bool
    requires { (1 ≤ t.now.count) × (t.now.count ≤ 64) }
    ensures { result ≡ leb (get_or t.now.months (t.now.count - 1) 0) last_card_month }
{
    t.months[t.count - 1] <= LAST_MONTH
}

// Writes a table's cards to the front of `out`, oldest first, and gives their length.
pub fn write_cards(t: &Table, out: &mut [u8]) -> Result<usize, Refusal>
    ensures { (result ≡ write_cards t.now out.old) × (out.new ≡ write_cards_after t.now out.old) }
{
    if !t.is_accepted() {
        return Err(Refusal::Table);
    }
    if !in_card_years(t) {
        return Err(Refusal::Range);
    }
    let mut bytes = [0; 5184];
    answer::write(cards_of(t, &mut bytes), out)
}
