// What a desk is answered to requests about stamps: from one to another, a pass, one moved or on another clock.
// Every public function is total, and says a reply or a refusal in words.
#![tactic(auto)]

ghost use Rattle.std.specs.Prelude.{◌≡◌, ◌||◌, ◌≤◌, ◌-ℤ◌};
ghost use Rattle.labels.specs.Labels.{month_of};
ghost use Rattle.phrases.specs.Puts.{Puts};
ghost use Rattle.phrases.specs.Replies.{Says};
ghost use Rattle.seconds.specs.Seconds.{Short, moved_by};
ghost use Rattle.stampwords.specs.Stamps.{clock_name, clock_named, stamp_read, beyond_text, clock_of, Near};
ghost use Rattle.stampwords.specs.Spans.{offset_on, steps_between, step_word, plural_text, count_text, steps_text, steps_in_order, span_of, between_text, misread_reply, between_reply, real_name, cell, sheet_row, pass_reply};
ghost use Rattle.stampwords.specs.Moves.{clock_text, shown_reply, moved_reply, show_reply, after_reply, add_reply};

use answer::{Marked, Refusal};
use leap::Table;
use phrases::{Said, Wrong};
use seconds::Move;
use stamp::{Scale, Stamp};

// Seconds added between two stamps of one clock, negative where they were taken out; or the clocks differ.
#[derive(Clone, Copy)]
pub struct Span {
    pub micros: i64,
    pub steps: Option<i64>,
    pub beyond: bool,
}

// Which of two stamps is refused, and why.
#[derive(Clone, Copy, Debug, PartialEq, Eq)]
pub enum Misread {
    First(Refusal),
    Second(Refusal),
}

// ---- one stamp moved

fn moved(x: i64, m: Move) -> i64
    requires { Near x × Short m }
    ensures { result ≡ moved_by m x }
{
    match m {
        Move::On(n) => x + (n as i64),
        Move::Back(n) => x - (n as i64),
    }
}

// ---- stamps: a clock goes by the scope's number of its scale, which `read_text` and `write_text` judge

fn clock_name(k: u32) -> [u8; 3]
    ensures { result ≡ clock_name k }
{
    match k {
        0 => *b"UTC",
        1 => *b"TAI",
        2 => *b"TDT",
        _ => *b"GPS",
    }
}

fn clock_named(name: &[u8]) -> u32
    ensures { result ≡ clock_named name.now }
{
    if check::same(name, b"UTC") {
        return 0;
    }
    if check::same(name, b"TAI") {
        return 1;
    }
    if check::same(name, b"TDT") {
        return 2;
    }
    if check::same(name, b"GPS") {
        return 3;
    }
    4
}

fn clock_of(given: &[u8]) -> u32
    ensures { result ≡ clock_of given.now }
{
    let end = lines::until(given, 0, 32);
    clock_named(&given[..end])
}

fn read_stamp(t: &Table, given: &[u8]) -> Marked<(i64, Stamp)>
    ensures { result ≡ stamp_read t.now given.now }
{
    let from = lines::past(given, 0, 32);
    text::read_text(t, clock_of(given), &given[from..])
}

fn put_beyond(out: &mut [u8], at: usize, beyond: bool) -> usize
    ensures { Puts out.old at (beyond_text beyond) result out.new }
{
    if beyond {
        return phrases::put(out, at, b", beyond the month that the table is vouched for");
    }
    phrases::put(out, at, b"")
}

// ---- from one stamp to another

fn offset_on(t: &Table, z: Stamp) -> i32
    requires { month_of z.reading.label ≤ 119999 }
    ensures { result ≡ offset_on t.now z }
{
    match z.scale {
        Scale::Utc => t.offset_at(labels::month_of(z.reading.label) as u32),
        Scale::Tai | Scale::Tdt | Scale::Gps => 0,
    }
}

fn steps_between(t: &Table, z: Stamp, w: Stamp) -> Option<i64>
    requires { (month_of z.reading.label ≤ 119999) × (month_of w.reading.label ≤ 119999) }
    ensures { result ≡ steps_between t.now z w }
{
    if z.scale != w.scale {
        return None;
    }
    let before = offset_on(t, z) as i64;
    let after = offset_on(t, w) as i64;
    Some(after - before)
}

// The two in the order of time.
fn steps_in_order(t: &Table, x: i64, z: Stamp, y: i64, w: Stamp) -> Option<i64>
    requires { (month_of z.reading.label ≤ 119999) × (month_of w.reading.label ≤ 119999) }
    ensures { result ≡ steps_in_order t.now x z y w }
{
    if y < x {
        return steps_between(t, w, z);
    }
    steps_between(t, z, w)
}

fn elapsed(x: i64, y: i64) -> i64
    requires { Near x × Near y }
    ensures { result ≡ y -ℤ x }
{
    y - x
}

fn span_between(t: &Table, a: &[u8], b: &[u8]) -> Result<Span, Misread>
    ensures { result ≡ span_of t.now a.now b.now }
{
    let first = read_stamp(t, a);
    let second = read_stamp(t, b);
    let start = first.answer;
    let end = second.answer;
    // No `?`: each refusal becomes another variant, and `map_err` by a variant's name left goals open.
    match start {
        Err(why) => Err(Misread::First(why)),
        Ok((x, z)) => match end {
            Err(why) => Err(Misread::Second(why)),
            Ok((y, w)) => {
                let micros = elapsed(x, y);
                let steps = steps_in_order(t, x, z, y, w);
                let beyond = first.beyond | second.beyond;
                Ok(Span {
                    micros,
                    steps,
                    beyond,
                })
            }
        },
    }
}

fn put_between(s: Span, out: &mut [u8], at: usize) -> usize
    ensures { Puts out.old at (between_text s) result out.new }
{
    let a = seconds::put_seconds(out, at, s.micros);
    let b = phrases::put(out, a, b" s");
    put_beyond(out, b, s.beyond)
}

// Says the refusal of the stamp at fault.
fn say_misread(misread: Misread, a: &[u8], b: &[u8], out: &mut [u8], at: usize) -> Said
    ensures { Says out.old at (misread_reply a.now b.now misread) result out.new }
{
    match misread {
        Misread::First(why) => phrases::refuse(out, at, why, a),
        Misread::Second(why) => phrases::refuse(out, at, why, b),
    }
}

// `between A and B`
pub fn say_between(t: &Table, a: &[u8], b: &[u8], out: &mut [u8], at: usize) -> Said
    ensures { Says out.old at (between_reply t.now a.now b.now) result out.new }
{
    match span_between(t, a, b) {
        Ok(s) => Said {
            at: put_between(s, out, at),
            good: true,
        },
        Err(misread) => say_misread(misread, a, b, out, at),
    }
}

fn put_step_word(out: &mut [u8], at: usize, z: i64) -> usize
    ensures { Puts out.old at (step_word z) result out.new }
{
    if z < 0 {
        return phrases::put(out, at, b"taken out");
    }
    phrases::put(out, at, b"added")
}

fn put_plural(out: &mut [u8], at: usize, n: u64) -> usize
    ensures { Puts out.old at (plural_text n) result out.new }
{
    if n == 1 {
        return phrases::put(out, at, b" second ");
    }
    phrases::put(out, at, b" seconds ")
}

fn put_count(out: &mut [u8], at: usize, z: i64) -> usize
    ensures { Puts out.old at (count_text z) result out.new }
{
    let n = digits::magnitude(z);
    if n == 0 {
        return phrases::put(out, at, b"no second added");
    }
    let a = phrases::put_unsigned(out, at, n);
    let b = put_plural(out, a, n);
    put_step_word(out, b, z)
}

fn put_steps(out: &mut [u8], at: usize, steps: Option<i64>) -> usize
    ensures { Puts out.old at (steps_text steps) result out.new }
{
    match steps {
        Some(z) => put_count(out, at, z),
        None => phrases::put(out, at, b"different clocks"),
    }
}

// What is given and a comma.
fn put_cell(out: &mut [u8], at: usize, given: &[u8]) -> usize
    ensures { Puts out.old at (cell given.now) result out.new }
{
    let a = phrases::put_quoted(out, at, given);
    phrases::put(out, a, b",")
}

fn put_row(name: &[u8], a: &[u8], b: &[u8], s: Span, out: &mut [u8], at: usize) -> usize
    ensures { Puts out.old at (sheet_row name.now a.now b.now s) result out.new }
{
    let steps = s.steps;
    let c = put_cell(out, at, name);
    let d = put_cell(out, c, a);
    let e = put_cell(out, d, b);
    let f = seconds::put_seconds(out, e, s.micros);
    let g = phrases::put(out, f, b",");
    let h = put_steps(out, g, steps);
    put_beyond(out, h, s.beyond)
}

fn real_name(name: &[u8]) -> bool
    ensures { result ≡ real_name name.now }
{
    if name.is_empty() {
        return false;
    }
    if lines::until(name, 0, b',') != name.len() {
        return false;
    }
    lines::until(name, 0, b'"') == name.len()
}

// `pass NAME from A to B`
pub fn say_pass(t: &Table, name: &[u8], a: &[u8], b: &[u8], out: &mut [u8], at: usize) -> Said
    ensures { Says out.old at (pass_reply t.now name.now a.now b.now) result out.new }
{
    if !real_name(name) {
        return phrases::refuse_request(out, at, Wrong::NoName, name);
    }
    match span_between(t, a, b) {
        Ok(s) => Said {
            at: put_row(name, a, b, s, out, at),
            good: true,
        },
        Err(misread) => say_misread(misread, a, b, out, at),
    }
}

// ---- one stamp

fn put_shown(text: &[u8], k: u32, beyond: bool, out: &mut [u8], at: usize) -> usize
    ensures { Puts out.old at (clock_text k text.now beyond) result out.new }
{
    let name = clock_name(k);
    let a = phrases::put(out, at, &name);
    let b = phrases::put(out, a, b" ");
    let c = phrases::put(out, b, text);
    put_beyond(out, c, beyond)
}

fn say_shown(
    t: &Table,
    line: &[u8],
    x: i64,
    k: u32,
    places: u32,
    mark: bool,
    out: &mut [u8],
    at: usize,
) -> Said
    ensures { Says out.old at (shown_reply t.now line.now x k places mark) result out.new }
{
    let mut text = [0u8; 27];
    let written = text::write_text(t, x, 0, k, places, &mut text);
    let beyond = mark | written.beyond;
    match written.answer {
        Ok(n) => {
            let e = lines::front(&text, n);
            Said {
                at: put_shown(&text[..e], k, beyond, out, at),
                good: true,
            }
        }
        Err(why) => phrases::refuse(out, at, why, line),
    }
}

fn say_moved(
    t: &Table,
    line: &[u8],
    given: &[u8],
    m: Move,
    k: u32,
    places: u32,
    out: &mut [u8],
    at: usize,
) -> Said
    requires { Short m }
    ensures { Says out.old at (moved_reply t.now line.now given.now m k places) result out.new }
{
    let read = read_stamp(t, given);
    match read.answer {
        Ok((instant, _)) => say_shown(t, line, moved(instant, m), k, places, read.beyond, out, at),
        Err(why) => phrases::refuse(out, at, why, given),
    }
}

// `show A on CLOCK`
pub fn say_show(
    t: &Table,
    line: &[u8],
    given: &[u8],
    clock: &[u8],
    out: &mut [u8],
    at: usize,
) -> Said
    ensures { Says out.old at (show_reply t.now line.now given.now clock.now) result out.new }
{
    say_moved(t, line, given, Move::On(0), clock_named(clock), 6, out, at)
}

// `after A`
pub fn say_after(t: &Table, line: &[u8], given: &[u8], out: &mut [u8], at: usize) -> Said
    ensures { Says out.old at (after_reply t.now line.now given.now) result out.new }
{
    say_moved(
        t,
        line,
        given,
        Move::On(1000000),
        clock_of(given),
        0,
        out,
        at,
    )
}

// `add SECONDS to A`
pub fn say_add(t: &Table, line: &[u8], by: &[u8], given: &[u8], out: &mut [u8], at: usize) -> Said
    ensures { Says out.old at (add_reply t.now line.now by.now given.now) result out.new }
{
    match seconds::move_given(by) {
        Some(m) => say_moved(t, line, given, m, clock_of(given), 6, out, at),
        None => phrases::refuse_request(out, at, Wrong::NoSeconds, by),
    }
}
