// The fields of a line: words after blanks, read one after the other as numbers, bytes or doubles.
// A field that is bad loses the cursor, so that a caller asks once, at the end, whether all were fine.
#![tactic(auto)]

ghost use Rattle.std.specs.Prelude.{◌≡◌, ◌&&◌, ◌-◌, ◌^◌, ◌≤◌, ◌<◌, eqb, pos, neg_ℤ, length, take, drop};
ghost use Rattle.std.specs.Float.{binary64};
ghost use Rattle.std.specs.Float.Ieee.{of_bits, to_bits};
ghost use Rattle.digits.specs.Decimals.{Within};
ghost use Rattle.lines.specs.Pairs.{hex_into};
ghost use Rattle.fields.specs.Words.{word_at, end_at, natural_of, integer_of, negative as Words·negative, positive as Words·positive, hex_word, pattern_of};
ghost use Rattle.fields.specs.Fields.{field_of, natural_at, integer_at, hex_at, pattern_at};

// Stands at the blank before the next word; at the end, and not fine, once a field was bad. No Option: the promises on each field speak of
// `at` and `fine`, and `fine` is asked once, at the end.
#[derive(Clone, Copy)]
pub struct Cursor {
    pub at: usize,
    pub fine: bool,
}

// A field's value and the cursor after it; 0 and a lost cursor where it is bad.
#[derive(Clone, Copy)]
pub struct Field<T> {
    pub value: T,
    pub next: Cursor,
}

// ---- words

// The next word and where it ends; no word where no blank stands at the cursor.
fn next_word(line: &[u8], at: usize) -> (&[u8], usize)
    ensures { (result.0.now ≡ word_at line.now at) × (result.1 ≡ end_at line.now at) }
{
    if line.len() <= at || line[at] != b' ' {
        return (&line[..0], 0);
    }
    let end = lines::until(line, at + 1, b' ');
    (&line[at + 1..end], end)
}

// Whether every field was fine and the line ends here.
pub fn ended(line: &[u8], c: Cursor) -> bool
    ensures { result ≡ (c.fine && eqb c.at (length line.now)) }
{
    c.fine && c.at == line.len()
}

// ---- words as values

// A decimal number up to `most`, and `-0` is 0.
fn natural(word: &[u8], most: u64) -> Option<u64>
    ensures { result ≡ natural_of most word.now }
{
    let [first, rest @ ..] = word else {
        return None;
    };
    if *first == b'-' {
        digits::decimal(rest, 0)
    } else {
        digits::decimal(word, most)
    }
}

fn negated(n: u64) -> i64
    requires { n ≤ 2 ^ 63 }
    ensures { result ≡ neg_ℤ (pos n) }
{
    if n == 0 { 0 } else { -1 - ((n - 1) as i64) }
}

fn negative(a: Option<u64>) -> Option<i64>
    requires { Within (2 ^ 63) a }
    ensures { result ≡ Words·negative a }
{
    a.map(negated)
}

fn positive(a: Option<u64>) -> Option<i64>
    requires { Within (2 ^ 63 - 1) a }
    ensures { result ≡ Words·positive a }
{
    a.map(|n| n as i64)
}

// A decimal number from -(most + 1) to most.
fn whole(word: &[u8], most: u64) -> Option<i64>
    requires { most < 2 ^ 63 }
    ensures { result ≡ integer_of most word.now }
{
    let [first, rest @ ..] = word else {
        return None;
    };
    if *first == b'-' {
        negative(digits::decimal(rest, most + 1))
    } else {
        positive(digits::decimal(word, most))
    }
}

// The bytes of a word of hex pairs, or none for `-`.
fn hex_word(word: &[u8], out: &mut [u8]) -> Option<u64>
    ensures { (result ≡ hex_word (length out.old) word.now) × (out.new ≡ hex_into out.old word.now) }
{
    let [first, rest @ ..] = word else {
        return None;
    };
    if *first != b'-' {
        lines::hex(word, out)
    } else if rest.is_empty() {
        Some(0)
    } else {
        None
    }
}

// The number of sixteen hex digits.
fn bits_of(word: &[u8]) -> Option<u64>
    ensures { result ≡ pattern_of word.now }
{
    if word.len() != 16 {
        return None;
    }
    let mut n = 0;
    for b in word {
        let d = lines::hex_digit(*b);
        if 15 < d {
            return None;
        }
        n = n * 16 + u64::from(d);
    }
    Some(n)
}

// ---- fields

// The field of a word that ends at `end`; `bad` is its value where it is bad, which loses the cursor to the line's end.
fn filled<T: Copy>(a: Option<T>, bad: T, fine: bool, end: usize, size: usize) -> Field<T>
    ensures { result ≡ field_of bad a fine end size }
{
    match a {
        Some(value) => Field {
            value,
            next: Cursor { at: end, fine },
        },
        None => Field {
            value: bad,
            next: Cursor {
                at: size,
                fine: false,
            },
        },
    }
}

// The next word as a number up to `most`.
pub fn number_field(line: &[u8], c: Cursor, most: u64) -> Field<u64>
    ensures { result ≡ natural_at most line.now c }
{
    let (word, end) = next_word(line, c.at);
    filled(natural(word, most), 0, c.fine, end, line.len())
}

// The next word as a u32.
pub fn u32_field(line: &[u8], c: Cursor) -> Field<u32>
    ensures { (result.value ≡ (natural_at (2 ^ 32 - 1) line.now c).value) × (result.next ≡ (natural_at (2 ^ 32 - 1) line.now c).next) }
{
    let Field { value, next } = number_field(line, c, 4294967295);
    Field {
        value: value as u32,
        next,
    }
}

fn integer_field(line: &[u8], c: Cursor, most: u64) -> Field<i64>
    requires { most < 2 ^ 63 }
    ensures { result ≡ integer_at most line.now c }
{
    let (word, end) = next_word(line, c.at);
    filled(whole(word, most), 0, c.fine, end, line.len())
}

// The next word as an i64.
pub fn i64_field(line: &[u8], c: Cursor) -> Field<i64>
    ensures { result ≡ integer_at (2 ^ 63 - 1) line.now c }
{
    integer_field(line, c, 9223372036854775807)
}

// The next word as an i32.
pub fn i32_field(line: &[u8], c: Cursor) -> Field<i32>
    ensures { (result.value ≡ (integer_at (2 ^ 31 - 1) line.now c).value) × (result.next ≡ (integer_at (2 ^ 31 - 1) line.now c).next) }
{
    let Field { value, next } = integer_field(line, c, 2147483647);
    Field {
        value: value as i32,
        next,
    }
}

// The next word as bytes, and how many they are.
pub fn hex_field(line: &[u8], c: Cursor, out: &mut [u8]) -> Field<u64>
    ensures { (result ≡ hex_at (length out.old) line.now c) × (out.new ≡ hex_into out.old (word_at line.now c.at)) }
{
    let (word, end) = next_word(line, c.at);
    let count = hex_word(word, out);
    filled(count, 0, c.fine, end, line.len())
}

// The next word as the bit pattern of a double.
pub fn pattern_field(line: &[u8], c: Cursor) -> Field<u64>
    ensures { result ≡ pattern_at line.now c }
{
    let (word, end) = next_word(line, c.at);
    let bits = bits_of(word);
    filled(bits, 0, c.fine, end, line.len())
}

// ---- doubles

// The double of a bit pattern, also of a NaN's.
pub fn double(bits: u64) -> f64
    ensures { result ≡ of_bits binary64 bits }
{
    if 0x7ff0_0000_0000_0000 < bits % 0x8000_0000_0000_0000 {
        f64::NAN
    } else {
        f64::from_bits(bits)
    }
}

// The bit pattern of a double, one fixed pattern for a NaN.
pub fn pattern(x: f64) -> u64
    ensures { result ≡ to_bits binary64 x }
{
    if x.is_nan() {
        0x7ff8_0000_0000_0000
    } else {
        x.to_bits()
    }
}
