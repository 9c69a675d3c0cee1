// What the desk answers to a line, as a function of its bytes, of the table and of the file that it names.
// Every public function is total.
#![tactic(auto)]

ghost use Rattle.std.specs.Prelude.{◌≡◌, ◌-◌, min, ◌≤◌, length, drop};
ghost use Rattle.phrases.specs.Parts.{up_to, behind as Parts·behind};
ghost use Rattle.phrases.specs.Puts.{Puts};
ghost use Rattle.phrases.specs.Replies.{Says};
ghost use Rattle.tablewords.specs.Loading.{Loads};
ghost use Rattle.wording.specs.Requests.{plain_request, request_of};
ghost use Rattle.wording.specs.Wording.{ask_between, ask_show, ask_add, ask_pass, ask_named, ask_why, reply_to, requested, judged as Wording·judged, answered};
ghost use Rattle.wording.specs.Summary.{numbers_text, more_text, bad_text, summary_text, part_behind, file_of};

use answer::Refusal;
use leap::Table;
use phrases::{Said, Wrong};
use tablewords::Loaded;

#[derive(Clone, Copy)]
pub enum Request {
    Between,
    Show,
    After,
    Add,
    Pass,
    Entries,
    Why,
    Help,
    Nothing,
    Unknown,
}

// The bytes of a line from `from` up to `end`.
#[derive(Clone, Copy)]
pub struct Part {
    pub from: usize,
    pub end: usize,
}

// ---- which request

fn plain_request(line: &[u8]) -> Request
    ensures { result ≡ plain_request line.now }
{
    if phrases::begins_with(line, b"why ") {
        return Request::Why;
    }
    if check::same(line, b"table") {
        return Request::Entries;
    }
    if check::same(line, b"help") {
        return Request::Help;
    }
    if check::same(line, b"") {
        return Request::Nothing;
    }
    Request::Unknown
}

fn request_of(line: &[u8]) -> Request
    ensures { result ≡ request_of line.now }
{
    if phrases::begins_with(line, b"between ") {
        return Request::Between;
    }
    if phrases::begins_with(line, b"show ") {
        return Request::Show;
    }
    if phrases::begins_with(line, b"after ") {
        return Request::After;
    }
    if phrases::begins_with(line, b"add ") {
        return Request::Add;
    }
    if phrases::begins_with(line, b"pass ") {
        return Request::Pass;
    }
    plain_request(line)
}

// ---- its parts

// Where what stands behind a word begins; the end where it stands nowhere.
fn behind(s: &[u8], word: &[u8]) -> usize
    ensures { (drop result s.now ≡ Parts·behind word.now s.now) × (result ≤ length s.now) }
{
    let k = phrases::up_to(s, word);
    if s.len() - k < word.len() {
        return s.len();
    }
    k + word.len()
}

// What stands before a word, and behind it; all and nothing where it stands nowhere.
fn parts_at<'a>(s: &'a [u8], word: &[u8]) -> (&'a [u8], &'a [u8])
    ensures first { result.0.now ≡ up_to word.now s.now }
    ensures second { result.1.now ≡ Parts·behind word.now s.now }
{
    let k = phrases::up_to(s, word);
    let from = behind(s, word);
    (&s[..k], &s[from..])
}

fn ask_between(t: &Table, rest: &[u8], out: &mut [u8], at: usize) -> Said
    ensures { Says out.old at (ask_between t.now rest.now) result out.new }
{
    let (first, second) = parts_at(rest, b" and ");
    stampwords::say_between(t, first, second, out, at)
}

fn ask_show(t: &Table, line: &[u8], rest: &[u8], out: &mut [u8], at: usize) -> Said
    ensures { Says out.old at (ask_show t.now line.now rest.now) result out.new }
{
    let (given, clock) = parts_at(rest, b" on ");
    stampwords::say_show(t, line, given, clock, out, at)
}

fn ask_add(t: &Table, line: &[u8], rest: &[u8], out: &mut [u8], at: usize) -> Said
    ensures { Says out.old at (ask_add t.now line.now rest.now) result out.new }
{
    let (by, given) = parts_at(rest, b" to ");
    stampwords::say_add(t, line, by, given, out, at)
}

fn ask_pass(t: &Table, name: &[u8], stamps: &[u8], out: &mut [u8], at: usize) -> Said
    ensures { Says out.old at (ask_pass t.now name.now stamps.now) result out.new }
{
    let (first, second) = parts_at(stamps, b" to ");
    stampwords::say_pass(t, name, first, second, out, at)
}

fn ask_named(t: &Table, rest: &[u8], out: &mut [u8], at: usize) -> Said
    ensures { Says out.old at (ask_named t.now rest.now) result out.new }
{
    let (name, stamps) = parts_at(rest, b" from ");
    ask_pass(t, name, stamps, out, at)
}

fn ask_why(given: &[u8], out: &mut [u8], at: usize) -> Said
    ensures { Says out.old at (ask_why given.now) result out.new }
{
    let Some(n) = digits::decimal(given, 15) else {
        return phrases::refuse_request(out, at, Wrong::NoNumber, given);
    };
    if n < 1 {
        return phrases::refuse_request(out, at, Wrong::NoNumber, given);
    }
    Said {
        at: phrases::put_why(out, at, n as u32),
        good: true,
    }
}

// ---- a line

// Says the reply to a request that leaves the table as it is.
fn reply(line: &[u8], t: &Table, out: &mut [u8], at: usize) -> Said
    ensures { Says out.old at (reply_to t.now line.now (request_of line.now)) result out.new }
{
    let four = lines::front(line, 4);
    let five = lines::front(line, 5);
    let six = lines::front(line, 6);
    let eight = lines::front(line, 8);
    match request_of(line) {
        Request::Between => ask_between(t, &line[eight..], out, at),
        Request::Show => ask_show(t, line, &line[five..], out, at),
        Request::After => stampwords::say_after(t, line, &line[six..], out, at),
        Request::Add => ask_add(t, line, &line[four..], out, at),
        Request::Pass => ask_named(t, &line[five..], out, at),
        Request::Entries => Said {
            at: tablewords::put_entries(t, out, at),
            good: true,
        },
        Request::Why => ask_why(&line[four..], out, at),
        Request::Help => Said {
            at: phrases::put_help(out, at),
            good: true,
        },
        Request::Nothing => Said {
            at: phrases::put(out, at, b""),
            good: true,
        },
        Request::Unknown => phrases::refuse(out, at, Refusal::Ask, line),
    }
}

fn asked(line: &[u8], t: &Table, readable: bool, file: &[u8], out: &mut [u8], at: usize) -> Loaded
    ensures { Loads out.old at (requested t.now readable file.now line.now) result out.new }
{
    if phrases::begins_with(line, b"table block ") {
        let from = lines::front(line, 12);
        return tablewords::load_block(&line[from..], out, at);
    }
    if phrases::begins_with(line, b"table kernel ") {
        let from = lines::front(line, 13);
        return tablewords::load_kernel(&line[from..], readable, file, out, at);
    }
    if phrases::begins_with(line, b"table cards ") {
        let from = lines::front(line, 12);
        return tablewords::load_cards(&line[from..], readable, file, out, at);
    }
    if phrases::begins_with(line, b"vouched ") {
        let from = lines::front(line, 8);
        return tablewords::vouch(t, &line[from..], out, at);
    }
    Loaded {
        said: reply(line, t, out, at),
        table: *t,
    }
}

fn judged(line: &[u8], t: &Table, readable: bool, file: &[u8], out: &mut [u8], at: usize) -> Loaded
    ensures { Loads out.old at (Wording·judged t.now readable file.now line.now) result out.new }
{
    if 1024 < line.len() {
        let k = lines::front(line, 40);
        return Loaded {
            said: phrases::refuse_request(out, at, Wrong::LongLine, &line[..k]),
            table: *t,
        };
    }
    asked(line, t, readable, file, out, at)
}

// Says the answer to a line, with its line feed, and gives the table afterwards. `file` is what the file that `file_of` names holds.
pub fn answer(
    line: &[u8],
    t: &Table,
    readable: bool,
    file: &[u8],
    out: &mut [u8],
    at: usize,
) -> Loaded
    ensures { Loads out.old at (answered t.now readable file.now line.now) result out.new }
{
    let Loaded { said, table } = judged(line, t, readable, file, out, at);
    Loaded {
        said: Said {
            at: phrases::put(out, said.at, b"\n"),
            good: said.good,
        },
        table,
    }
}

// The part of a line behind its first n bytes.
fn part_behind(line: &[u8], n: usize) -> Part
    ensures { result ≡ part_behind n line.now }
{
    Part {
        from: lines::front(line, n),
        end: line.len(),
    }
}

// The part of a line that names the file to be read; no byte where it names none.
pub fn file_of(line: &[u8]) -> Part
    ensures value { result ≡ file_of line.now }
    ensures from_le_end { (result.from ≤ result.end) × (result.end ≤ length line.now) }
{
    if 1024 < line.len() {
        return Part { from: 0, end: 0 };
    }
    if phrases::begins_with(line, b"table kernel ") {
        return part_behind(line, 13);
    }
    if phrases::begins_with(line, b"table cards ") {
        return part_behind(line, 12);
    }
    Part { from: 0, end: 0 }
}

// ---- the last line

fn put_numbers(numbers: &[u64; 20], n: usize, out: &mut [u8], at: usize) -> usize
    requires { n ≤ 20 }
    ensures { Puts out.old at (numbers_text numbers.now n) result out.new }
{
    let mut next = phrases::put(out, at, b"");
    for i in 0..n {
        let a = phrases::put(out, next, b" ");
        next = phrases::put_unsigned(out, a, numbers[i]);
    }
    next
}

fn put_more(bad: u64, out: &mut [u8], at: usize) -> usize
    ensures { Puts out.old at (more_text bad) result out.new }
{
    if bad <= 20 {
        return phrases::put(out, at, b"");
    }
    let a = phrases::put(out, at, b" and ");
    let b = phrases::put_unsigned(out, a, bad - 20);
    phrases::put(out, b, b" more")
}

fn put_bad(bad: u64, first: &[u64; 20], out: &mut [u8], at: usize) -> usize
    ensures { Puts out.old at (bad_text bad first.now) result out.new }
{
    if bad == 0 {
        return phrases::put(out, at, b"");
    }
    let a = phrases::put(out, at, b" - not good:");
    let b = put_numbers(first, bad.min(20) as usize, out, a);
    put_more(bad, out, b)
}

// Puts the last line: of so many lines so many were not good, the first of them these.
pub fn summary(count: u64, bad: u64, first: &[u64; 20], out: &mut [u8], at: usize) -> usize
    ensures { Puts out.old at (summary_text count bad first.now) result out.new }
{
    let a = phrases::put_unsigned(out, at, count.saturating_sub(bad));
    let b = phrases::put(out, a, b" of ");
    let c = phrases::put_unsigned(out, b, count);
    let d = phrases::put(out, c, b" lines good");
    let e = put_bad(bad, first, out, d);
    phrases::put(out, e, b"\n")
}
