// A leap-seconds text kernel: read with the first fault and its place, written whole or not at all.
// What a kernel is, is in `grammar`; the reader steps through it byte by byte with `automaton`.
#![tactic(auto)]

ghost use Rattle.std.specs.Prelude.{◌≡◌, true, List, ℕ, [], ◌++◌, ◌+◌, ◌<◌, ◌≤◌, length, take};
ghost use Rattle.std.specs.Int.Signed.{mag};
ghost use Rattle.digits.specs.Decimals.{signed_text};
ghost use Rattle.leap.specs.Leap.{accepted};
ghost use Rattle.automaton.specs.Run.{may_end};
ghost use Rattle.automaton.specs.declared.Mode.TheVariants.{Rest};
ghost use Rattle.kernel.specs.Reading.{place_of, ended, verdict, read_kernel, ReadsOn};
ghost use Rattle.kernel.specs.Writing.{pair_text, kernel_of, write_kernel, write_kernel_after};

use answer::{Fault, Refusal};
use automaton::{Mode, Resting};
use kinds::OTHER;
use leap::Table;
use std::marker::Model;

// How much of a file is read.
const LIMIT: usize = 65536;

// ---- reading

// What leaves the reader where it stands is not looked at: the rest of a line of text that is no \begindata line, and blanks.
fn pass_over(s: &[u8], i: usize, rest: Resting) -> usize
    requires { i ≤ length s.now }
    ensures { ReadsOn s.now (Rest rest) i result }
{
    match rest {
        Resting::Text(OTHER) => lines::until(s, i, b'\n'),
        // An arm of its own: the proof has no name for an arm of a number and other variants.
        Resting::Text(0) => lines::past_blanks(s, i),
        Resting::Fresh | Resting::Gap => lines::past_blanks(s, i),
        _ => i,
    }
}

fn may_end(mode: Mode) -> bool
    ensures { result ≡ may_end mode }
{
    matches!(mode, Mode::Rest(_))
}

fn place_of(n: usize, mode: Mode) -> usize
    ensures { result ≡ place_of n mode }
{
    match mode {
        Mode::Dead(place) => place,
        _ => n,
    }
}

// The n bytes end with the pairs of this table; `whole`: they are the file.
fn settle(whole: bool, n: usize, mode: Mode, t: &Table) -> Result<Table, Fault>
    ensures { result ≡ ended whole n mode t.now }
{
    if may_end(mode) && whole && 0 < t.count {
        return leap::judge(t);
    }
    leap::refused_at(Refusal::Kernel, place_of(n, mode))
}

// A pair is entered right behind its date; from 65 on pairs are no longer counted, since no table has so many.
#[tactic(auto, using(crate::proofs::Going::on_end, crate::proofs::Going::on_rest, crate::proofs::Going::on_ours, crate::proofs::Going::only_blanks, crate::proofs::Going::on_full))]
fn read_bytes(s: &[u8], whole: bool) -> Result<Table, Fault>
    ensures { result ≡ verdict whole s.now }
{
    let mut mode = Mode::Rest(Resting::Text(0));
    let mut table = Table::empty();
    let mut i = 0;
    // while: what leaves the reader where it stands is passed over at once, so the index moves on by more than one.
    while i < s.len() {
        mode = automaton::step(0 < table.count, i, mode, s[i]);
        i += 1;
        match mode {
            Mode::Rest(rest) => i = pass_over(s, i, rest),
            Mode::Ours(_) => i = lines::past_blanks(s, i),
            Mode::Done(_, minus, n, month) if table.count < 64 => {
                table.months[table.count] = month;
                table.offsets[table.count] = digits::with_sign(minus, n);
                table.count += 1;
            }
            Mode::Done(..) => table.count = 65,
            Mode::Dead(place) => {
                return Err(Fault {
                    why: Refusal::Kernel,
                    at: place,
                })
            }
            Mode::Inside(_) | Mode::Name(..) | Mode::Pair(..) | Mode::Date(..) => {}
        }
    }
    settle(whole, s.len(), mode, &table)
}

// The table of a kernel, or the first fault and its place.
pub fn read_kernel(s: &[u8]) -> Result<Table, Fault>
    ensures { result ≡ read_kernel s.now }
{
    if s.len() <= LIMIT {
        read_bytes(s, true)
    } else {
        read_bytes(&s[..LIMIT], false)
    }
}

// ---- writing

// A kernel that is filled from its front. It has at most 31 bytes before its pairs, 16 for the first, 37 for each other, and 14 behind them.
#[derive(Drop)]
struct Kernel {
    bytes: [u8; 2392],
    len: usize,
}

// Clauses see the bytes that are put so far.
impl Model for Kernel {
    ghost Value = { List ℕ };

    ghost view = { λ k. take k.len k.bytes };

    ghost invariant = { λ k. k.len ≤ 2392 };
}

impl Kernel {
    fn new() -> Kernel
        ensures { result ≡ [] }
    {
        Kernel {
            bytes: [0; 2392],
            len: 0,
        }
    }

    fn put(&mut self, text: &[u8])
        requires { length self.old + length text.now ≤ 2392 }
        ensures { self.new ≡ self.old ++ text.now }
    {
        self.len = digits::append(&mut self.bytes, self.len, text);
    }

    fn put_signed(&mut self, n: i32)
        requires small { mag n < 99 }
        requires room { length self.old + 3 ≤ 2392 }
        ensures value { self.new ≡ self.old ++ signed_text n }
        ensures short { length self.new ≤ length self.old + 3 }
    {
        self.len = digits::append_signed(&mut self.bytes, self.len, i64::from(n));
    }

    // A number without a plus, and its date.
    fn put_pair(&mut self, month: u32, offset: i32)
        requires small { mag offset < 99 }
        requires room { length self.old + 16 ≤ 2392 }
        ensures { self.new ≡ self.old ++ pair_text (month, offset) }
    {
        let year = digits::digits(1972 + month / 12);
        self.put_signed(offset);
        self.put(b", @");
        self.put(&year[5..]);
        self.put(b"-");
        self.put(&digits::month_name(month % 12 + 1));
        self.put(b"-1");
    }

    fn of(t: &Table) -> Kernel
        requires { accepted t.now ≡ true }
        ensures { result ≡ kernel_of t.now }
    {
        let mut kernel = Kernel::new();
        kernel.put(b"\\begindata\nDELTET/DELTA_AT = ( ");
        kernel.put_pair(t.months[0], t.offsets[0]);
        // An index: the two arrays of a table are read in step, from the second place on.
        for k in 1..t.count {
            kernel.put(b"\n                    ");
            kernel.put_pair(t.months[k], t.offsets[k]);
        }
        kernel.put(b" )\n\\begintext\n");
        kernel
    }

    fn text(&self) -> &[u8]
        ensures { result.now ≡ self.now }
    {
        &self.bytes[..self.len]
    }
}

// Writes a table's kernel to the front of `out`, and gives its length.
pub fn write_kernel(t: &Table, out: &mut [u8]) -> Result<usize, Refusal>
    ensures { (result ≡ write_kernel t.now out.old) × (out.new ≡ write_kernel_after t.now out.old) }
{
    if !t.is_accepted() {
        return Err(Refusal::Table);
    }
    answer::write(Kernel::of(t).text(), out)
}
