// Texts put into a buffer one behind another, as much of each as it holds; the parts of a line; the refusals in words.
// Every public function is total.
#![tactic(auto)]

ghost use Rattle.std.specs.Prelude.{◌≡◌, ◌≤◌, length};
ghost use Rattle.digits.specs.Decimals.{decimal_text, signed_text};
ghost use Rattle.lines.specs.Words.{line_of};
ghost use Rattle.answer.specs.Refusals.{number};
ghost use Rattle.phrases.specs.Puts.{Puts};
ghost use Rattle.phrases.specs.Parts.{begins_with, up_to, shown_byte, quoted};
ghost use Rattle.phrases.specs.Replies.{refusing_as, refusal, Says};
ghost use Rattle.phrases.specs.Texts.{months, help, sentence, named_text, refusal_text, why_text};

use answer::Refusal;

// Where the next text goes, and whether what was said is good, which a refusal is not.
// No Result: a refusal is said too, and the next text goes behind it.
#[derive(Clone, Copy, Debug, PartialEq, Eq)]
pub struct Said {
    pub at: usize,
    pub good: bool,
}

// What only a request of a desk can get wrong; its sentence stands behind those of the refusals.
#[derive(Clone, Copy, Debug, PartialEq, Eq)]
pub enum Wrong {
    LongLine,
    NoSeconds,
    NoName,
    NoMonth,
    NoNumber,
    NoHex,
    NoFile,
    LongFile,
}

// The line of its sentence.
impl From<Wrong> for u32 {
    ghost from_gives = { λ wrong n. n ≡ sentence wrong };

    fn from(wrong: Wrong) -> u32 {
        match wrong {
            Wrong::LongLine => 16,
            Wrong::NoSeconds => 17,
            Wrong::NoName => 18,
            Wrong::NoMonth => 19,
            Wrong::NoNumber => 20,
            Wrong::NoHex => 21,
            Wrong::NoFile => 22,
            Wrong::LongFile => 23,
        }
    }
}

const NAMES: [u8; 89] =
    *b"-\nROOM\nSHAPE\nYEAR\nDATE\nCLOCK\nNOSECOND\nRANGE\nASK\nCUT\nGROUPS\nTABLE\nTAIL\nNUMBER\nKERNEL\nCARD\n";

const SENTENCES: [u8; 1478] =
    *b"-\nThe result is longer than the buffer that was lent.\nA stamp looks like 1987-04-12T16:31:12 or 1987-102T16:31:12 or 1986 APR 12 16:31:09 and one to six digits may follow a point. Not read are a blank for the T; a Z or a blank or a carriage return at the end; a stamp without seconds; Dec for DEC.\nThe year is before 1972 or past 9999.\nThe month or the day is zero or too large.\nThe hour is over 23 or the minute over 59 or the second over 60; and TAI and TDT and GPS have no second 60.\nUTC has no such second under the table in force.\nWhat is asked for lies before 1972 or past 9999 on its clock.\nThis is no request or a stamp without its clock. The clocks are UTC and TAI and TDT and GPS; help lists the requests.\nThe block ends too soon.\nA number of the block is not in its shortest form.\nThe leap table is not right or none is loaded; or its last entry lies after the month that it is to be vouched for.\nThe block goes on behind its last entry.\nThis is no pair of a midnight and a fraction.\nThe file is no leap-seconds kernel or is longer than 65536 bytes.\nA line of the file is no TP card or its date is out of order.\nThe line has over 1024 bytes.\nA number of seconds looks like 90.5 or -3 with up to 12 digits and six behind the point.\nA name has no comma and no quote in it.\nA month looks like 2026-12 and is not before 1972-01.\nA refusal has a number from 1 to 15.\nA block is written as pairs of hex digits.\nThe file cannot be read.\nThe file is longer than 65536 bytes.\n";

const ADVICE: [u8; 718] =
    *b"-\nLend a longer one. This program never gives it.\nWrite it so; behind its clock and one blank.\nCheck the year.\nCheck the date; February 29 is in leap years only.\nCheck the time and the clock in front of it.\nCheck the stamp; if it is right then load a newer table.\nAsk for another clock or a smaller step.\nPut the clock in front of each stamp; help lists the requests.\nCopy it again from its beginning to its end.\nAsk whoever sent the block for a new one.\nLoad a right table; or give a later month.\nCopy the block alone.\nGive a midnight that ends in .5 and a fraction below 1.\nLook at the byte that is named; or ask for the file again.\nLook at the line that begins at the byte that is named; or ask for the file again.\n";

const MONTHS: [u8; 88] =
    *b"-\nJanuary\nFebruary\nMarch\nApril\nMay\nJune\nJuly\nAugust\nSeptember\nOctober\nNovember\nDecember\n";

const HELP: [u8; 444] =
    *b"between UTC 2016-12-31T23:58:30 and UTC 2017-01-01T00:01:30\nshow UTC 2016-12-31T23:59:60 on GPS\nafter UTC 2016-12-31T23:59:59\nadd 90.5 to UTC 2016-12-31T23:58:30\npass AURORA-3 from UTC 2016-12-31T23:58:30 to UTC 2017-01-01T00:01:30\ntable\ntable kernel FILE\ntable cards FILE\ntable block HEX\nvouched 2026-12\nwhy 6\nhelp\nclocks: UTC TAI TDT GPS\npictures: 1987-04-12T16:31:12 1987-102T16:31:12 1986 APR 12 16:31:09 and up to six digits behind a point";

// ---- texts

// Puts a text at `at`, as much of it as there is room for, and gives where the next one goes.
// The place stays beside the lent buffer: the statements of five crates speak of both (`Puts`).
pub fn put(out: &mut [u8], at: usize, text: &[u8]) -> usize
    ensures { Puts out.old at text.now result out.new }
{
    let room = out.len().saturating_sub(at);
    let k = text.len().min(room);
    digits::append(out, at, &text[..k])
}

// Puts a number in decimal.
pub fn put_unsigned(out: &mut [u8], at: usize, n: u64) -> usize
    ensures { Puts out.old at (decimal_text n) result out.new }
{
    let mut text = [0u8; 20];
    let k = digits::append_unsigned(&mut text, 0, n);
    put(out, at, &text[..k])
}

// Puts a number in decimal, with `-` in front where it is negative.
pub fn put_signed(out: &mut [u8], at: usize, z: i64) -> usize
    ensures { Puts out.old at (signed_text z) result out.new }
{
    let mut text = [0u8; 21];
    let k = digits::append_signed(&mut text, 0, z);
    put(out, at, &text[..k])
}

fn shown_byte(b: u8) -> u8
    ensures { result ≡ shown_byte b }
{
    match b {
        b'"' | b',' => b'?',
        b' '..=b'~' => b,
        _ => b'?',
    }
}

// Puts what was given, as it is shown.
pub fn put_quoted(out: &mut [u8], at: usize, given: &[u8]) -> usize
    ensures { Puts out.old at (quoted given.now) result out.new }
{
    let mut next = put(out, at, b"");
    for b in given {
        next = put(out, next, &[shown_byte(*b)]);
    }
    next
}

// Puts line k of a text.
fn put_line(out: &mut [u8], at: usize, text: &[u8], k: usize) -> usize
    ensures { Puts out.old at (line_of text.now k) result out.new }
{
    let from = lines::line_start(text, k);
    let end = lines::until(text, from, b'\n');
    put(out, at, &text[from..end])
}

// ---- parts of a line

pub fn begins_with(s: &[u8], word: &[u8]) -> bool
    ensures { result ≡ begins_with word.now s.now }
{
    s.starts_with(word)
}

// Where a word stands first; the end where it stands nowhere.
pub fn up_to(s: &[u8], word: &[u8]) -> usize
    ensures { (result ≡ length (up_to word.now s.now)) × (result ≤ length s.now) }
{
    for i in 0..s.len() {
        if begins_with(&s[i..], word) {
            return i;
        }
    }
    s.len()
}

// ---- the refusals in words

// Puts a name of a refusal and a sentence.
fn put_named(out: &mut [u8], at: usize, number: u32, sentence: u32) -> usize
    ensures { Puts out.old at (named_text number sentence) result out.new }
{
    let a = put_unsigned(out, at, number as u64);
    let b = put(out, a, b" ");
    let c = put_line(out, b, &NAMES, number as usize);
    let d = put(out, c, b": ");
    put_line(out, d, &SENTENCES, sentence as usize)
}

// Puts a refusal of this number, with a sentence and what was given.
fn put_refusal(out: &mut [u8], at: usize, number: u32, sentence: u32, given: &[u8]) -> usize
    ensures { Puts out.old at (refusal_text number sentence given.now) result out.new }
{
    let a = put(out, at, b"refused ");
    let b = put_named(out, a, number, sentence);
    let c = put(out, b, b" Given: ");
    put_quoted(out, c, given)
}

// Says a refusal of this number, with a sentence and what was given.
pub fn refuse_as(out: &mut [u8], at: usize, number: u32, sentence: u32, given: &[u8]) -> Said
    ensures { Says out.old at (refusing_as number sentence given.now) result out.new }
{
    Said {
        at: put_refusal(out, at, number, sentence, given),
        good: false,
    }
}

// Says that a request is refused, as no request, for what is wrong with it.
pub fn refuse_request(out: &mut [u8], at: usize, wrong: Wrong, given: &[u8]) -> Said
    ensures { Says out.old at (refusing_as (number Refusal.Ask) (sentence wrong) given.now) result out.new }
{
    refuse_as(out, at, u32::from(Refusal::Ask), u32::from(wrong), given)
}

// Says a refusal with the sentence of its number.
pub fn refuse(out: &mut [u8], at: usize, why: Refusal, given: &[u8]) -> Said
    ensures { Says out.old at (refusal why given.now) result out.new }
{
    let n = u32::from(why);
    refuse_as(out, at, n, n, given)
}

// Puts why a call is refused with this number, and what to do.
pub fn put_why(out: &mut [u8], at: usize, number: u32) -> usize
    ensures { Puts out.old at (why_text number) result out.new }
{
    let a = put_named(out, at, number, number);
    let b = put(out, a, b" What to do: ");
    put_line(out, b, &ADVICE, number as usize)
}

// Puts the name of a month from 1 to 12.
pub fn put_month(out: &mut [u8], at: usize, month: u32) -> usize
    ensures { Puts out.old at (line_of months month) result out.new }
{
    put_line(out, at, &MONTHS, month as usize)
}

// Puts the requests that a desk knows.
pub fn put_help(out: &mut [u8], at: usize) -> usize
    ensures { Puts out.old at help result out.new }
{
    put(out, at, &HELP)
}
