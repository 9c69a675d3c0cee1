// Lines as programs read and write them: up to a byte, behind blanks, the lines of a text, the front of a buffer, lines out of chunks, and bytes as pairs of hex digits.
// Every public function is total.
#![tactic(auto)]

ghost use Rattle.std.specs.Prelude.{◌≡◌, [], ◌∷◌, ◌+◌, ◌*◌, ◌/◌, ◌≤◌, ◌<◌, ◌↔◌, min, length, drop, IsTrue, EachIndex, slice_index};
ghost use Rattle.laws.specs.Placed.{place};
ghost use Rattle.digits.specs.Bytes.{Counts, Appended};
ghost use Rattle.lines.specs.Words.{before, leading, is_blank, past as Words·past, line_of, line_start};
ghost use Rattle.lines.specs.Cuts.{piece_at, cut_at, held_in};
ghost use Rattle.lines.specs.Pairs.{nibble, paired, hex_of, hex_into, glyph as Pairs·glyph, hex_text, hex_shown};

// The index of the first b from `from` on; the end, or `from` itself past that.
#[tactic(auto, using(crate::proofs::Words::before_here, crate::proofs::Words::before_more, crate::proofs::Words::before_end))]
pub fn until(s: &[u8], from: usize, b: u8) -> usize
    ensures value { result ≡ from + length (before b (drop from s.now)) }
    ensures upper_bound { (from ≤ length s.now → result ≤ length s.now) × (from ≤ result) }
{
    for i in from..s.len() {
        if s[i] == b {
            return i;
        }
    }
    from.max(s.len())
}

// The index behind the blanks from `from` on; the end, or `from` itself past that.
#[tactic(auto, using(crate::proofs::Words::leading_more, crate::proofs::Words::blanks_stop, crate::proofs::Words::leading_none))]
pub fn past_blanks(s: &[u8], from: usize) -> usize
    ensures value { result ≡ from + length (leading is_blank (drop from s.now)) }
    ensures upper_bound { (from ≤ length s.now → result ≤ length s.now) × (from ≤ result) }
{
    for i in from..s.len() {
        if s[i] != b' ' {
            return i;
        }
    }
    from.max(s.len())
}

// The index behind the first b from `from` on; the end where there is none.
pub fn past(s: &[u8], from: usize, b: u8) -> usize
    ensures { (result ≡ Words·past b s.now from) × (result ≤ length s.now) }
{
    let end = until(s, from, b);
    if end < s.len() { end + 1 } else { s.len() }
}

// Where line k of a text begins, counted from 0; the end where there are fewer.
pub fn line_start(s: &[u8], k: usize) -> usize
    ensures value { result ≡ line_start s.now k }
    ensures s_value { (before 10 (drop result s.now) ≡ line_of s.now k) × (result ≤ length s.now) }
{
    let mut from = 0;
    for _line in 0..k {
        from = past(s, from, b'\n');
    }
    from
}

// n, or the length of s where n is more: `&s[..r]` then needs no proof.
pub fn front(s: &[u8], n: usize) -> usize
    ensures counts { Counts result s.now }
    ensures value { result ≡ min n (length s.now) }
{
    n.min(s.len())
}

// ---- lines out of chunks

// Where the chunk goes on, how many bytes of the line are held, and whether its end was there.
#[derive(Clone, Copy)]
pub struct Cut {
    pub at: usize,
    pub len: usize,
    pub ended: bool,
}

// Holds as many bytes of a piece as there is room for behind those that are held, and gives how many are held then.
pub fn hold(line: &mut [u8], held: usize, piece: &[u8]) -> usize
    ensures { (result ≡ min (held + length piece.now) (length line.old)) × (line.new ≡ held_in line.old held piece.now) }
{
    if line.len() < held {
        return line.len();
    }
    let n = front(piece, line.len() - held);
    digits::append(line, held, &piece[..n])
}

// Moves the bytes up to the next line end to a line that holds some already. A line that fills what is lent may have had more.
// The second clause follows from the first, and spares callers that proof.
pub fn take_line(chunk: &[u8], from: usize, line: &mut [u8], held: usize) -> Cut
    ensures value { (result ≡ cut_at chunk.now from (length line.old) held) × (line.new ≡ held_in line.old held (piece_at chunk.now from)) }
    ensures at_value { result.at ≡ min (from + length (piece_at chunk.now from) + 1) (length chunk.now) }
{
    let first = front(chunk, from);
    let end = until(chunk, first, b'\n');
    let len = hold(line, held, &chunk[first..end]);
    let ended = end < chunk.len();
    let at = if ended { end + 1 } else { end };
    Cut { at, len, ended }
}

// ---- hex in

// The value of a hex digit of either case; 16 for any other byte, as `nibble` of specs/ has it, whose definition the promise on this function cites.
#[tactic(auto, unfolding(crate::specs::Pairs::nibble))]
pub fn hex_digit(b: u8) -> u8
    ensures { (result ≡ nibble b) × (result ≤ 16) }
{
    match b {
        b'0'..=b'9' => b - b'0',
        b'A'..=b'F' => b - b'A' + 10,
        b'a'..=b'f' => b - b'a' + 10,
        _ => 16,
    }
}

// Whether a word has hex digits alone.
fn all_hex(word: &[u8]) -> bool
    ensures { IsTrue result ↔ EachIndex word.now (λ k. nibble (slice_index word.now k) < 16) }
{
    word.iter().all(|b| hex_digit(*b) < 16)
}

// Stores the bytes of a word of hex pairs.
fn unhex(word: &[u8], out: &mut [u8])
    requires room { length word.now / 2 ≤ length out.old }
    requires digits { EachIndex word.now (λ k. nibble (slice_index word.now k) < 16) }
    ensures { (length word.now / 2 ≡ length (paired word.now)) × (out.new ≡ place out.old 0 (paired word.now)) }
{
    // An index: a zip with chunks_exact would have an iterator for each side and still index the pair.
    for i in 0..word.len() / 2 {
        out[i] = hex_digit(word[i * 2]) * 16 + hex_digit(word[i * 2 + 1]);
    }
}

// The bytes of a word of hex pairs, if there is room for them all. It judges before it stores: a refusal leaves the buffer as it was.
pub fn hex(word: &[u8], out: &mut [u8]) -> Option<u64>
    ensures { (result ≡ hex_of (length out.old) word.now) × (out.new ≡ hex_into out.old word.now) }
{
    let size = word.len() / 2;
    if out.len() < size || word.len() % 2 != 0 || !all_hex(word) {
        return None;
    }
    unhex(word, out);
    Some(size as u64)
}

// ---- hex out

#[tactic(auto, unfolding(crate::specs::Pairs::glyph))]
fn glyph(d: u8) -> u8
    requires { d < 16 }
    ensures { result ≡ Pairs·glyph d }
{
    if d < 10 { b'0' + d } else { b'a' + (d - 10) }
}

// The two hex digits of a byte.
#[tactic(auto, unfolding(crate::specs::Pairs::hex_text))]
fn glyphs(b: u8) -> [u8; 2]
    ensures { result ≡ hex_text (b ∷ []) }
{
    [glyph(b / 16), glyph(b % 16)]
}

// Stores the pairs of hex digits of bytes from index `at` on.
fn put_hex(out: &mut [u8], at: usize, bytes: &[u8])
    requires { at + length bytes.now * 2 ≤ length out.old }
    ensures { out.new ≡ place out.old at (hex_text bytes.now) }
{
    for (i, b) in bytes.iter().enumerate() {
        digits::append(out, at + i * 2, &glyphs(*b));
    }
}

// Appends bytes as pairs of hex digits, `-` where there are none.
pub fn append_hex(out: &mut [u8], at: usize, bytes: &[u8]) -> usize
    ensures { Appended out.old at (hex_shown bytes.now) result out.new }
{
    if bytes.is_empty() {
        return digits::append(out, at, b"-");
    }
    if out.len() < at {
        return out.len();
    }
    if (out.len() - at) / 2 < bytes.len() {
        return at;
    }
    put_hex(out, at, bytes);
    at + bytes.len() * 2
}
