// Decimals of fixed and free width, both ways, the months' names, one byte read and bytes appended.
// Every public function is total: a byte past the end is 0, and a text without room is not written.
#![tactic(auto)]

ghost use Rattle.std.specs.Prelude.{◌≡◌, [], ◌∷◌, ◌+◌, ◌*◌, ◌/◌, ◌%◌, ◌≤◌, ◌<◌, nat_abs, length, get_or};
ghost use Rattle.laws.specs.Placed.{place};
ghost use Rattle.digits.specs.Bytes.{same_bytes, Appended, EndsWith};
ghost use Rattle.digits.specs.Decimals.{is_digit, digit_value, signed, digit_at, digits_of, width_of, decimal_of, decimal_text, signed_text};
ghost use Rattle.digits.specs.Months.{month_name, month_named};

// A text that ends an array: its bytes from `from` on. No heap: an array of fixed size, and where the text in it begins.
#[derive(Clone, Copy)]
struct Text {
    bytes: [u8; 21],
    from: usize,
}

// A number past it has no ten times in 64 bits.
const LARGEST_TENTH: u64 = 1844674407370955161;

const MONTHS: [u8; 36] = *b"JANFEBMARAPRMAYJUNJULAUGSEPOCTNOVDEC";

// ---- bytes

// The byte at an index, 0 past the end.
pub fn byte_at(s: &[u8], i: usize) -> u8
    ensures { result ≡ get_or s.now i 0 }
{
    s.get(i).copied().unwrap_or(0)
}

// Stores the bytes of src from index `at` on.
fn put(out: &mut [u8], at: usize, src: &[u8])
    requires { at + length src.now ≤ length out.old }
    ensures { out.new ≡ place out.old at src.now }
{
    out[at..at + src.len()].copy_from_slice(src);
}

// Appends a text at `at`, whole or not at all, and gives where the next one goes.
pub fn append(out: &mut [u8], at: usize, text: &[u8]) -> usize
    ensures { Appended out.old at text.now result out.new }
{
    if out.len() < at {
        return out.len();
    }
    if out.len() - at < text.len() {
        return at;
    }
    put(out, at, text);
    at + text.len()
}

// ---- decimals in

#[tactic(auto, unfolding(crate::specs::Decimals::is_digit))]
pub fn is_digit(b: u8) -> bool
    ensures { result ≡ is_digit b }
{
    matches!(b, b'0'..=b'9')
}

// What a digit stands for, 0 for any other byte.
#[tactic(auto, unfolding(crate::specs::Decimals::digit_value))]
pub fn digit_value(b: u8) -> u8
    ensures { (result ≡ digit_value b) × (result ≤ 9) }
{
    match b {
        b'0'..=b'9' => b - b'0',
        _ => 0,
    }
}

// The number that a word's digits spell, if it is at most `most`.
pub fn decimal(word: &[u8], most: u64) -> Option<u64>
    ensures { result ≡ decimal_of most word.now }
{
    if word.is_empty() {
        return None;
    }
    let mut n = 0;
    for &b in word {
        if !is_digit(b) {
            return None;
        }
        let d = u64::from(digit_value(b));
        // std's checked_mul divides, and no 64 bits are divided here.
        if LARGEST_TENTH < n || most < n * 10 || most - n * 10 < d {
            return None;
        }
        n = n * 10 + d;
    }
    Some(n)
}

// A number with its sign.
pub fn with_sign(minus: bool, n: u16) -> i32
    ensures { result ≡ signed minus n }
{
    let size = i32::from(n);
    if minus { -size } else { size }
}

// ---- decimals out

// The powers of ten of nine places, but for the last.
const POWERS: [u32; 8] = [100000000, 10000000, 1000000, 100000, 10000, 1000, 100, 10];

// The digit of a power's place, and what is left for the places behind it: the power is taken away while it can be, at most nine times.
// Eight of them and one more: of a loop that ends only where the number does, our compiler makes a division.
fn take_away(n: u32, power: u32) -> (u8, u32)
    requires { n < 10 * power }
    ensures { (result.0 ≡ digit_at n power) × (result.1 ≡ n % power) }
{
    let mut rest = n;
    for digit in b'0'..b'8' {
        if rest < power {
            return (digit, rest);
        }
        rest -= power;
    }
    if rest < power {
        return (b'8', rest);
    }
    (b'9', rest - power)
}

// All nine digits of a number that has two at most.
fn below_hundred(n: u32) -> [u8; 9]
    requires { n < 100 }
    ensures { result ≡ digits_of 9 n }
{
    let (ten, one) = take_away(n, POWERS[7]);
    let mut out = [b'0'; 9];
    out[7] = ten;
    out[8] = b'0' + one as u8;
    out
}

// And of one that has four.
fn below_ten_thousand(n: u32) -> [u8; 9]
    requires { n < 10000 }
    ensures { result ≡ digits_of 9 n }
{
    let (f, rest) = take_away(n, POWERS[5]);
    let (g, rest) = take_away(rest, POWERS[6]);
    let (h, rest) = take_away(rest, POWERS[7]);
    let mut out = [b'0'; 9];
    out[5] = f;
    out[6] = g;
    out[7] = h;
    out[8] = b'0' + rest as u8;
    out
}

// What nine digits hold of a number. Four steps are few enough to stand one below another.
fn below_billion(n: u32) -> u32
    ensures { result ≡ n % 1000000000 }
{
    if n < 1000000000 {
        return n;
    }
    if n < 2000000000 {
        return n - 1000000000;
    }
    if n < 3000000000 {
        return n - 2000000000;
    }
    if n < 4000000000 {
        return n - 3000000000;
    }
    n - 4000000000
}

fn nine_digits(n: u32) -> [u8; 9]
    ensures { result ≡ digits_of 9 n }
{
    // No loop over the powers: it misses the bar of speed, since the compiler keeps the table on the stack.
    let (a, rest) = take_away(below_billion(n), POWERS[0]);
    let (b, rest) = take_away(rest, POWERS[1]);
    let (c, rest) = take_away(rest, POWERS[2]);
    let (d, rest) = take_away(rest, POWERS[3]);
    let (e, rest) = take_away(rest, POWERS[4]);
    let (f, rest) = take_away(rest, POWERS[5]);
    let (g, rest) = take_away(rest, POWERS[6]);
    let (h, rest) = take_away(rest, POWERS[7]);
    [a, b, c, d, e, f, g, h, b'0' + rest as u8]
}

// The last nine decimal digits of a number, by subtraction alone. A shorter field takes the last of them, a fraction the last six.
// Most fields are short: places that must be zero are not looked at.
pub fn digits(n: u32) -> [u8; 9]
    ensures { result ≡ digits_of 9 n }
{
    if n < 100 {
        return below_hundred(n);
    }
    if n < 10000 {
        return below_ten_thousand(n);
    }
    nine_digits(n)
}

// How many thousand millions a number has, and what is left. Long division in binary: there is no divide, and digits are made in 32 bits.
fn split(n: u64) -> (u64, u32)
    ensures { (result.0 ≡ n / 1000000000) × (result.1 ≡ n % 1000000000) }
{
    let mut above = 0;
    let mut rest = n;
    for k in (0..35u32).rev() {
        let part = 1000000000 << k;
        above *= 2;
        if part <= rest {
            rest -= part;
            above += 1;
        }
    }
    (above, rest as u32)
}

// All of its digits, behind one more place: a zero, free for a sign.
fn all_places(size: u64) -> [u8; 21]
    ensures { result ≡ digits_of 21 size }
{
    let mut out = [b'0'; 21];
    if size < 1000000000 {
        let c = digits(size as u32);
        put(&mut out, 12, &c);
        return out;
    }
    let (above, low) = split(size);
    let (top, middle) = split(above);
    let a = digits(top as u32);
    let b = digits(middle);
    let c = digits(low);
    put(&mut out, 0, &a[6..]);
    put(&mut out, 3, &b);
    put(&mut out, 12, &c);
    out
}

// How many digits a number has.
fn width(n: u64) -> usize
    ensures { (result ≡ width_of 20 n) × (1 ≤ result) × (result ≤ 20) }
{
    let mut power = 10;
    for k in 1..19 {
        if n < power {
            return k;
        }
        power *= 10;
    }
    if n < power { 19 } else { 20 }
}

fn unsigned_text(n: u64) -> Text
    ensures { EndsWith result.bytes result.from (decimal_text n) }
{
    let bytes = all_places(n);
    Text {
        bytes,
        from: 21 - width(n),
    }
}

// The size of a number without its sign.
pub fn magnitude(z: i64) -> u64
    ensures { result ≡ nat_abs z }
{
    z.unsigned_abs()
}

// Appends a number in decimal.
pub fn append_unsigned(out: &mut [u8], at: usize, n: u64) -> usize
    ensures { Appended out.old at (decimal_text n) result out.new }
{
    let text = unsigned_text(n);
    append(out, at, &text.bytes[text.from..])
}

// Appends a number in decimal, with `-` in front where it is negative.
pub fn append_signed(out: &mut [u8], at: usize, z: i64) -> usize
    ensures { Appended out.old at (signed_text z) result out.new }
{
    let Text { mut bytes, from } = unsigned_text(magnitude(z));
    if z < 0 {
        bytes[from - 1] = b'-';
        return append(out, at, &bytes[from - 1..]);
    }
    append(out, at, &bytes[from..])
}

// ---- months

// The three letters of a month from 1 to 12; past the year the months go on from its start, and 0 is the one before 1.
// The month is cut first: 11 more than the largest would not fit 32 bits.
pub fn month_name(month: u32) -> [u8; 3]
    ensures { result ≡ month_name month }
{
    let i = ((month % 12 + 11) % 12) as usize * 3;
    [MONTHS[i], MONTHS[i + 1], MONTHS[i + 2]]
}

fn is_named(month: u32, a: u8, b: u8, c: u8) -> bool
    ensures { result ≡ same_bytes (month_name month) (a ∷ b ∷ c ∷ []) }
{
    // Letter by letter: `== [a, b, c]` took three to four times as long.
    let [x, y, z] = month_name(month);
    x == a && y == b && z == c
}

// The month from 1 to 12 of this name, 0 for any other bytes: `month_named` of specs/, which the promises on texts cite, has this 0.
pub fn month_named(a: u8, b: u8, c: u8) -> u32
    ensures { result ≡ month_named (a ∷ b ∷ c ∷ []) }
{
    // No range in reverse: it took twice as long.
    for passed in 0..12 {
        let month = 12 - passed;
        if is_named(month, a, b, c) {
            return month;
        }
    }
    0
}
