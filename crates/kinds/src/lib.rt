// The bytes of a kernel by kind, and what is kept of a word, a number, a year or a month while it is read.
// No function needs a precondition: what is kept stays within its type for every byte.
#![tactic(auto)]

ghost use Rattle.std.specs.Prelude.{◌≡◌, cond, ◌-◌, ◌≤◌};
ghost use Rattle.kinds.specs.Kinds.{is_white, is_gap, is_between, is_run, is_name, upper, begin_data, begin_text, ours};
ghost use Rattle.kinds.specs.Parts.{matched, grown, years_begin, grown_year, goes_on, month_on, month_number};

// ---- kinds of bytes

pub fn is_white(b: u8) -> bool
    ensures { result ≡ is_white b }
{
    matches!(b, b' ' | b'\t' | b'\r')
}

pub fn is_gap(b: u8) -> bool
    ensures { result ≡ is_gap b }
{
    is_white(b) || b == b'\n'
}

pub fn is_between(b: u8) -> bool
    ensures { result ≡ is_between b }
{
    is_gap(b) || b == b','
}

pub fn is_run(b: u8) -> bool
    ensures { result ≡ is_run b }
{
    matches!(b, b'!'..=b'~') && !matches!(b, b'(' | b')' | b',' | b'=' | b'\'' | b'\\')
}

pub fn is_name(b: u8) -> bool
    ensures { result ≡ is_name b }
{
    is_run(b) && !matches!(b, b'+' | b'@')
}

// ---- words, numbers, months

// More bytes than a word of a kernel has: it stands for any other word.
pub const OTHER: usize = 16;

// The first of two letters where the test holds, else the other.
pub fn pick(test: bool, yes: u8, other: u8) -> u8
    ensures { result ≡ cond test yes other }
{
    if test { yes } else { other }
}

// k bytes of a word are read, and b follows: how many are read now; OTHER where b is not the next.
// No Option: `matched` of specs/ says 16, and so do the modes of the automaton and the theorems on both.
#[tactic(auto, unfolding(crate::specs::Parts::matched))]
fn matched_in(word: &[u8], k: usize, b: u8) -> usize
    ensures { result ≡ matched word.now k b }
{
    if word.get(k) == Some(&b) {
        k + 1
    } else {
        OTHER
    }
}

// Of ours, of \begindata and of \begintext: one call each, since `SettledKinds` of `promises` settles the three by name.
pub fn ours_next(k: usize, b: u8) -> usize
    ensures { result ≡ matched ours k b }
{
    matched_in(b"DELTET/DELTA_AT", k, b)
}

pub fn data_next(k: usize, b: u8) -> usize
    ensures { result ≡ matched begin_data k b }
{
    matched_in(b"\\begindata", k, b)
}

pub fn text_next(k: usize, b: u8) -> usize
    ensures { result ≡ matched begin_text k b }
{
    matched_in(b"\\begintext", k, b)
}

pub fn grow(n: u16, b: u8) -> u16
    ensures { result ≡ grown n b }
{
    if n < 1000 {
        n * 10 + u16::from(digits::digit_value(b))
    } else {
        n
    }
}

pub fn grow_year(year: u32, b: u8) -> u32
    ensures { result ≡ grown_year year b }
{
    year % 1000 * 10 + u32::from(digits::digit_value(b))
}

pub fn years_begin(k: usize, year: u32) -> bool
    ensures { result ≡ years_begin k year }
{
    match k {
        0 => 1 <= year,
        1 => 19 <= year,
        2 => 197 <= year,
        _ => 1972 <= year,
    }
}

pub fn capital(b: u8) -> u8
    ensures { result ≡ upper b }
{
    b.to_ascii_uppercase()
}

fn goes_on(from: u8, k: usize, c: u8, m: u8) -> bool
    ensures { result ≡ goes_on from k c m }
{
    let name = digits::month_name(u32::from(m));
    let begun = digits::month_name(u32::from(from));
    let first = name[0] == pick(k == 0, c, begun[0]);
    let second = name[1] == pick(k == 1, c, begun[1]);
    first && (k == 0 || second && (k == 1 || name[2] == c))
}

// The last month whose name goes on from the first k letters of `from` with c; 0 for none, as `month_on` of specs/ says.
#[tactic(auto, using(crate::proofs::Months::last_month), unfolding(crate::specs::Parts::month_on))]
pub fn month_on(from: u8, k: usize, c: u8) -> u8
    ensures { result ≡ month_on from k c 12 }
{
    for m in (1..=12).rev() {
        if goes_on(from, k, c, m) {
            return m;
        }
    }
    0
}

pub fn month_number(year: u32, m: u8) -> u32
    ensures { result ≡ month_number year m }
{
    (year % 10000).saturating_sub(1972) * 12 + u32::from(m).saturating_sub(1)
}
