// The reader of kernels as an automaton: where it stands in the grammar, a byte, and where it stands behind it.
// No mode needs a precondition: what is kept of a number, a year or a word stays within its type for every byte.
#![tactic(auto)]

ghost use Rattle.std.specs.Prelude.{◌≡◌};
ghost use Rattle.automaton.specs.Step.{in_text, in_gap, in_fresh, in_closed, in_run, in_quoted, in_rest, in_other, in_named, in_name, in_close, in_plus, in_value, in_quote, to_item, in_open, in_items, behind_item, in_item_run, in_item_quote, in_item_quoted, in_inside, in_sign, in_digits, in_to_date, in_pair, in_our_value, to_pair, in_first, in_pairs, in_ours, in_year, in_month, in_day, in_date, in_done, step as stepped};

use kinds::{OTHER, is_between, is_gap, is_name, is_run, is_white};

// How many bytes `\begindata` and `\begintext` have, and how many our name has. Numbers, as `Step` of specs/ counts.
const BEGIN: usize = 10;

const OURS: usize = 15;

// Where the reader stands. A date's place, sign and size go side by side and in no struct: `Step` of specs/ and the theorems of `grammar` take a mode apart by them.
#[derive(Clone, Copy, Debug, PartialEq, Eq)]
pub enum Mode {
    // Where a file may end.
    Rest(Resting),
    // In a \begintext line, or in another's assignment.
    Inside(Within),
    // In a name: so many bytes of ours, OTHER for another; and where it begins.
    Name(usize, usize),
    // In our assignment, before a number.
    Ours(Pairing),
    // In a number of ours or behind it: minus or not, and its size.
    Pair(bool, u16, Counting),
    // In a date: where it begins, and its number.
    Date(usize, bool, u16, Dating),
    // Right behind a date: where it begins, its number, its month.
    Done(usize, bool, u16, u32),
    // No good file goes on so: the place of the fault.
    Dead(usize),
}

#[derive(Clone, Copy, Debug, PartialEq, Eq)]
pub enum Resting {
    // In a line of text: so many bytes of \begindata, OTHER for any other line.
    Text(usize),
    // In data, on a line with nothing but white so far, and behind an assignment.
    Fresh,
    Gap,
    // Behind all of \begintext.
    Closed,
    // In another's run, and behind a quote that may close its text.
    Run,
    Quoted,
}

#[derive(Clone, Copy, Debug, PartialEq, Eq)]
pub enum Within {
    // So many bytes of \begintext.
    Close(usize),
    // Behind another's name, behind its +, behind its =.
    Other,
    Plus,
    Value,
    // In its text in quotes; in its parentheses before the first item, behind one, and in one.
    Quote,
    Open,
    Items,
    ItemRun,
    ItemQuote,
    ItemQuoted,
}

#[derive(Clone, Copy, Debug, PartialEq, Eq)]
pub enum Pairing {
    // Behind our name, behind its =, before the first pair, and behind a pair and what parts it from the next.
    Named,
    OurValue,
    First,
    Pairs,
}

#[derive(Clone, Copy, Debug, PartialEq, Eq)]
pub enum Counting {
    Sign,
    Digits,
    ToDate,
}

#[derive(Clone, Copy, Debug, PartialEq, Eq)]
pub enum Dating {
    // So many digits of a year, and the year so far.
    Year(usize, u32),
    // A year, so many letters of a month, and a month that begins with them.
    Month(u32, usize, u8),
    // A month from January 1972, and whether a zero is read.
    Day(u32, bool),
}

// ---- our number

fn in_sign(at: usize, minus: bool, n: u16, b: u8) -> Mode
    ensures { result ≡ in_sign at minus n b }
{
    if digits::is_digit(b) {
        Mode::Pair(minus, kinds::grow(n, b), Counting::Digits)
    } else {
        Mode::Dead(at)
    }
}

fn in_digits(at: usize, minus: bool, n: u16, b: u8) -> Mode
    ensures { result ≡ in_digits at minus n b }
{
    if digits::is_digit(b) {
        Mode::Pair(minus, kinds::grow(n, b), Counting::Digits)
    } else if is_between(b) {
        Mode::Pair(minus, n, Counting::ToDate)
    } else {
        Mode::Dead(at)
    }
}

fn in_to_date(at: usize, minus: bool, n: u16, b: u8) -> Mode
    ensures { result ≡ in_to_date at minus n b }
{
    match b {
        _ if is_between(b) => Mode::Pair(minus, n, Counting::ToDate),
        b'@' => Mode::Date(at, minus, n, Dating::Year(0, 0)),
        _ => Mode::Dead(at),
    }
}

fn in_pair(at: usize, minus: bool, n: u16, part: Counting, b: u8) -> Mode
    ensures { result ≡ in_pair at minus n part b }
{
    match part {
        Counting::Sign => in_sign(at, minus, n, b),
        Counting::Digits => in_digits(at, minus, n, b),
        Counting::ToDate => in_to_date(at, minus, n, b),
    }
}

// ---- where a file may end

fn in_text(k: usize, b: u8) -> Mode
    ensures { result ≡ in_text k b }
{
    Mode::Rest(match b {
        b'\n' if k == BEGIN => Resting::Fresh,
        b'\n' => Resting::Text(0),
        _ if !is_white(b) => Resting::Text(kinds::data_next(k, b)),
        _ if k == 0 || k == BEGIN => Resting::Text(k),
        _ => Resting::Text(OTHER),
    })
}

fn gap_next(at: usize, b: u8) -> Mode
    ensures { result ≡ in_gap at b }
{
    match b {
        _ if is_white(b) => Mode::Rest(Resting::Gap),
        b'\n' => Mode::Rest(Resting::Fresh),
        _ if is_name(b) => Mode::Name(kinds::ours_next(0, b), at),
        _ => Mode::Dead(at),
    }
}

fn fresh_next(at: usize, b: u8) -> Mode
    ensures { result ≡ in_fresh at b }
{
    match b {
        b'\\' => Mode::Inside(Within::Close(1)),
        _ if is_white(b) => Mode::Rest(Resting::Fresh),
        _ => gap_next(at, b),
    }
}

fn closed_next(at: usize, b: u8) -> Mode
    ensures { result ≡ in_closed at b }
{
    match b {
        b'\n' => Mode::Rest(Resting::Text(0)),
        _ if is_white(b) => Mode::Rest(Resting::Closed),
        _ => Mode::Dead(at),
    }
}

fn run_next(at: usize, b: u8) -> Mode
    ensures { result ≡ in_run at b }
{
    match b {
        _ if is_run(b) => Mode::Rest(Resting::Run),
        _ if is_white(b) => Mode::Rest(Resting::Gap),
        b'\n' => Mode::Rest(Resting::Fresh),
        _ => Mode::Dead(at),
    }
}

fn quoted_next(at: usize, b: u8) -> Mode
    ensures { result ≡ in_quoted at b }
{
    if b == b'\'' {
        Mode::Inside(Within::Quote)
    } else {
        gap_next(at, b)
    }
}

fn in_rest(at: usize, rest: Resting, b: u8) -> Mode
    ensures { result ≡ in_rest at rest b }
{
    match rest {
        Resting::Text(k) => in_text(k, b),
        Resting::Fresh => fresh_next(at, b),
        Resting::Gap => gap_next(at, b),
        Resting::Closed => closed_next(at, b),
        Resting::Run => run_next(at, b),
        Resting::Quoted => quoted_next(at, b),
    }
}

// ---- a name

fn other_next(at: usize, b: u8) -> Mode
    ensures { result ≡ in_other at b }
{
    match b {
        _ if is_gap(b) => Mode::Inside(Within::Other),
        b'+' => Mode::Inside(Within::Plus),
        b'=' => Mode::Inside(Within::Value),
        _ => Mode::Dead(at),
    }
}

fn named_next(at: usize, b: u8) -> Mode
    ensures { result ≡ in_named at b }
{
    match b {
        _ if is_gap(b) => Mode::Ours(Pairing::Named),
        b'=' => Mode::Ours(Pairing::OurValue),
        _ => Mode::Dead(at),
    }
}

fn in_name(have: bool, at: usize, k: usize, start: usize, b: u8) -> Mode
    ensures { result ≡ in_name have at k start b }
{
    if is_name(b) {
        Mode::Name(kinds::ours_next(k, b), start)
    } else if k != OURS {
        other_next(at, b)
    } else if have {
        Mode::Dead(start)
    } else {
        named_next(at, b)
    }
}

// ---- a \begintext line, and another's assignment

fn in_close(at: usize, k: usize, b: u8) -> Mode
    ensures { result ≡ in_close at k b }
{
    match kinds::text_next(k, b) {
        OTHER => Mode::Dead(at),
        BEGIN => Mode::Rest(Resting::Closed),
        next => Mode::Inside(Within::Close(next)),
    }
}

fn plus_next(at: usize, b: u8) -> Mode
    ensures { result ≡ in_plus at b }
{
    if b == b'=' {
        Mode::Inside(Within::Value)
    } else {
        Mode::Dead(at)
    }
}

fn value_next(at: usize, b: u8) -> Mode
    ensures { result ≡ in_value at b }
{
    match b {
        _ if is_gap(b) => Mode::Inside(Within::Value),
        b'(' => Mode::Inside(Within::Open),
        b'\'' => Mode::Inside(Within::Quote),
        _ if is_run(b) => Mode::Rest(Resting::Run),
        _ => Mode::Dead(at),
    }
}

fn quote_next(at: usize, b: u8) -> Mode
    ensures { result ≡ in_quote at b }
{
    match b {
        b'\'' => Mode::Rest(Resting::Quoted),
        b'\n' | b'\\' => Mode::Dead(at),
        _ => Mode::Inside(Within::Quote),
    }
}

fn to_item(at: usize, b: u8) -> Mode
    ensures { result ≡ to_item at b }
{
    match b {
        b'\'' => Mode::Inside(Within::ItemQuote),
        _ if is_run(b) => Mode::Inside(Within::ItemRun),
        _ => Mode::Dead(at),
    }
}

fn open_next(at: usize, b: u8) -> Mode
    ensures { result ≡ in_open at b }
{
    if is_between(b) {
        Mode::Inside(Within::Open)
    } else {
        to_item(at, b)
    }
}

fn items_next(at: usize, b: u8) -> Mode
    ensures { result ≡ in_items at b }
{
    match b {
        _ if is_between(b) => Mode::Inside(Within::Items),
        b')' => Mode::Rest(Resting::Gap),
        _ => to_item(at, b),
    }
}

fn behind_item(at: usize, b: u8) -> Mode
    ensures { result ≡ behind_item at b }
{
    match b {
        _ if is_between(b) => Mode::Inside(Within::Items),
        b')' => Mode::Rest(Resting::Gap),
        _ => Mode::Dead(at),
    }
}

fn item_run_next(at: usize, b: u8) -> Mode
    ensures { result ≡ in_item_run at b }
{
    if is_run(b) {
        Mode::Inside(Within::ItemRun)
    } else {
        behind_item(at, b)
    }
}

fn item_quote_next(at: usize, b: u8) -> Mode
    ensures { result ≡ in_item_quote at b }
{
    match b {
        b'\'' => Mode::Inside(Within::ItemQuoted),
        b'\n' | b'\\' => Mode::Dead(at),
        _ => Mode::Inside(Within::ItemQuote),
    }
}

fn item_quoted_next(at: usize, b: u8) -> Mode
    ensures { result ≡ in_item_quoted at b }
{
    if b == b'\'' {
        Mode::Inside(Within::ItemQuote)
    } else {
        behind_item(at, b)
    }
}

fn in_inside(at: usize, within: Within, b: u8) -> Mode
    ensures { result ≡ in_inside at within b }
{
    match within {
        Within::Close(k) => in_close(at, k, b),
        Within::Other => other_next(at, b),
        Within::Plus => plus_next(at, b),
        Within::Value => value_next(at, b),
        Within::Quote => quote_next(at, b),
        Within::Open => open_next(at, b),
        Within::Items => items_next(at, b),
        Within::ItemRun => item_run_next(at, b),
        Within::ItemQuote => item_quote_next(at, b),
        Within::ItemQuoted => item_quoted_next(at, b),
    }
}

// ---- our assignment, before a number

fn our_value_next(at: usize, b: u8) -> Mode
    ensures { result ≡ in_our_value at b }
{
    match b {
        _ if is_gap(b) => Mode::Ours(Pairing::OurValue),
        b'(' => Mode::Ours(Pairing::First),
        _ => Mode::Dead(at),
    }
}

fn to_pair(at: usize, b: u8) -> Mode
    ensures { result ≡ to_pair at b }
{
    match b {
        b'+' => Mode::Pair(false, 0, Counting::Sign),
        b'-' => Mode::Pair(true, 0, Counting::Sign),
        _ => in_sign(at, false, 0, b),
    }
}

fn first_next(at: usize, b: u8) -> Mode
    ensures { result ≡ in_first at b }
{
    if is_between(b) {
        Mode::Ours(Pairing::First)
    } else {
        to_pair(at, b)
    }
}

fn pairs_next(at: usize, b: u8) -> Mode
    ensures { result ≡ in_pairs at b }
{
    match b {
        _ if is_between(b) => Mode::Ours(Pairing::Pairs),
        b')' => Mode::Rest(Resting::Gap),
        _ => to_pair(at, b),
    }
}

fn in_ours(at: usize, pairing: Pairing, b: u8) -> Mode
    ensures { result ≡ in_ours at pairing b }
{
    match pairing {
        Pairing::Named => named_next(at, b),
        Pairing::OurValue => our_value_next(at, b),
        Pairing::First => first_next(at, b),
        Pairing::Pairs => pairs_next(at, b),
    }
}

// ---- our date: a bad one is placed at its start

fn in_year(start: usize, minus: bool, n: u16, k: usize, year: u32, b: u8) -> Mode
    ensures { result ≡ in_year start minus n k year b }
{
    if k < 4 {
        let grown = kinds::grow_year(year, b);
        if digits::is_digit(b) && kinds::years_begin(k, grown) {
            return Mode::Date(start, minus, n, Dating::Year(k + 1, grown));
        }
    } else if b == b'-' {
        return Mode::Date(start, minus, n, Dating::Month(year, 0, 0));
    }
    Mode::Dead(start)
}

fn in_month(start: usize, minus: bool, n: u16, year: u32, k: usize, from: u8, b: u8) -> Mode
    ensures { result ≡ in_month start minus n year k from b }
{
    if k < 3 {
        let month = kinds::month_on(from, k, kinds::capital(b));
        if 0 < month {
            return Mode::Date(start, minus, n, Dating::Month(year, k + 1, month));
        }
    } else if b == b'-' {
        let month = kinds::month_number(year, from);
        return Mode::Date(start, minus, n, Dating::Day(month, false));
    }
    Mode::Dead(start)
}

fn in_day(start: usize, minus: bool, n: u16, month: u32, nought: bool, b: u8) -> Mode
    ensures { result ≡ in_day start minus n month nought b }
{
    match b {
        b'1' => Mode::Done(start, minus, n, month),
        b'0' if !nought => Mode::Date(start, minus, n, Dating::Day(month, true)),
        _ => Mode::Dead(start),
    }
}

fn in_date(start: usize, minus: bool, n: u16, dating: Dating, b: u8) -> Mode
    ensures { result ≡ in_date start minus n dating b }
{
    match dating {
        Dating::Year(k, year) => in_year(start, minus, n, k, year, b),
        Dating::Month(year, k, from) => in_month(start, minus, n, year, k, from, b),
        Dating::Day(month, nought) => in_day(start, minus, n, month, nought, b),
    }
}

fn in_done(at: usize, start: usize, b: u8) -> Mode
    ensures { result ≡ in_done at start b }
{
    match b {
        _ if is_run(b) => Mode::Dead(start),
        _ if is_between(b) => Mode::Ours(Pairing::Pairs),
        b')' => Mode::Rest(Resting::Gap),
        _ => Mode::Dead(at),
    }
}

// Where the reader stands behind the byte b at place `at`; `have`: a pair of ours stood before.
#[tactic(auto, unfolding(crate::specs::Step::step))]
pub fn step(have: bool, at: usize, mode: Mode, b: u8) -> Mode
    ensures { result ≡ stepped have at mode b }
{
    match mode {
        Mode::Rest(rest) => in_rest(at, rest, b),
        Mode::Inside(within) => in_inside(at, within, b),
        Mode::Name(k, start) => in_name(have, at, k, start, b),
        Mode::Ours(pairing) => in_ours(at, pairing, b),
        Mode::Pair(minus, n, part) => in_pair(at, minus, n, part, b),
        Mode::Date(start, minus, n, dating) => in_date(start, minus, n, dating, b),
        Mode::Done(start, ..) => in_done(at, start, b),
        Mode::Dead(place) => Mode::Dead(place),
    }
}
