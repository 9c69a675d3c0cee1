// Records of columns: lines that are passed over, blank fields, and the plain decimals that fields hold.
// Every public function is total. A line is cut out of a file by `until` of `lines`; a field is a slice of its line.
#![tactic(auto)]

ghost use Rattle.std.specs.Prelude.{◌≡◌, ◌≤◌, ◌<◌, ◌^◌, length};
ghost use Rattle.columns.specs.Columns.{all_blank, is_comment, passed_over};
ghost use Rattle.columns.specs.Decimals.{is_sign, is_point, BehindOne, Digits, decimal_in, whole_of};

// A plain decimal: whether it has a minus, the number that all its digits spell, and how many of them stand behind the point.
#[derive(Clone, Copy, Debug, PartialEq, Eq)]
pub struct Decimal {
    pub minus: bool,
    pub number: u64,
    pub places: usize,
}

// ---- lines and fields

// Nothing but blanks, or nothing at all.
#[tactic(auto, using(crate::proofs::Fields::blank_is))]
pub fn all_blank(s: &[u8]) -> bool
    ensures { result ≡ all_blank s.now }
{
    lines::past_blanks(s, 0) == s.len()
}

fn is_comment(line: &[u8]) -> bool
    ensures { result ≡ is_comment line.now }
{
    matches!(line.first(), Some(b'*' | b'C' | b'c'))
}

// A line that is no record: blank, or a comment.
#[tactic(auto, unfolding(crate::specs::Columns::passed_over))]
pub fn passed_over(line: &[u8]) -> bool
    ensures { result ≡ passed_over line.now }
{
    all_blank(line) || is_comment(line)
}

// ---- plain decimals

// Two of them: one function would take a closure, with clauses on what it tells and on when it may be called, and be no shorter.
fn past_sign(s: &[u8], i: usize) -> usize
    requires { i ≤ length s.now }
    ensures { BehindOne is_sign s.now i result }
{
    if matches!(s.get(i), Some(b'+' | b'-')) {
        i + 1
    } else {
        i
    }
}

fn past_point(s: &[u8], i: usize) -> usize
    requires { i ≤ length s.now }
    ensures { BehindOne is_point s.now i result }
{
    if matches!(s.get(i), Some(b'.')) {
        i + 1
    } else {
        i
    }
}

// Where digits end, and what they spell behind those before them.
#[derive(Clone, Copy, Debug, PartialEq, Eq)]
struct Run {
    number: u64,
    end: usize,
}

#[tactic(auto, using(crate::proofs::Fields::reads_none, crate::proofs::Fields::reads_low, crate::proofs::Fields::reads_more, crate::proofs::Fields::reads_stop, crate::proofs::Fields::reads_end))]
fn past_digits(s: &[u8], from: usize, before: u64) -> Run
    requires { (from ≤ length s.now) × ((length s.now ≤ 18) × (before < 10 ^ from)) }
    ensures { Digits s.now from before result.number result.end }
{
    let mut number = before;
    for i in from..s.len() {
        let b = s[i];
        if !digits::is_digit(b) {
            return Run { number, end: i };
        }
        number = number * 10 + digits::digit_value(b) as u64;
    }
    Run {
        number,
        end: s.len(),
    }
}

// The plain decimal that a field of up to 18 columns holds.
pub fn decimal_in(s: &[u8]) -> Option<Decimal>
    ensures { result ≡ decimal_in s.now }
{
    if 18 < s.len() {
        return None;
    }
    let from = lines::past_blanks(s, 0);
    let first = past_sign(s, from);
    let whole = past_digits(s, first, 0);
    let behind = past_point(s, whole.end);
    let all = past_digits(s, behind, whole.number);
    let places = all.end - behind;
    if (whole.end - first) + places < 1 || lines::past_blanks(s, all.end) < s.len() {
        return None;
    }
    Some(Decimal {
        minus: digits::byte_at(s, from) == b'-',
        number: all.number,
        places,
    })
}

// The whole number that number / 10 ^ places is, if it is one.
#[tactic(auto, using(crate::proofs::Wholes::whole_not, crate::proofs::Wholes::whole_less, crate::proofs::Wholes::whole_zero, crate::proofs::Wholes::whole_one))]
pub fn whole(number: u64, places: usize) -> Option<u64>
    ensures { result ≡ whole_of number places }
{
    if number == 0 {
        return Some(0);
    }
    let mut n = number;
    for _ in 0..places {
        if n % 10 != 0 {
            return None;
        }
        n /= 10;
    }
    Some(n)
}
