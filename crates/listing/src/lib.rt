// What `ticks` prints, as a function from the bytes of its input to the bytes of its output.
// Three lines are judged in their order, and nothing is stored before all three are: the first bad one decides.
#![tactic(auto)]

ghost use Rattle.std.specs.Prelude.{◌≡◌, true, [], ◌++◌, ◌+◌, ◌*◌, ◌≤◌, ℕ, pos, length};
ghost use Rattle.std.specs.Int.Signed.{quot_z};
ghost use Rattle.answer.specs.Buffers.{written, buffer_after};
ghost use Rattle.leap.specs.declared.Table.{Table};
ghost use Rattle.leap.specs.Leap.{accepted};
ghost use Rattle.labels.specs.declared.Label.{Label};
ghost use Rattle.clock.specs.Promise.{admits};
ghost use Rattle.lines.specs.Words.{line_of};
ghost use Rattle.digits.specs.Bytes.{Placed};
ghost use Rattle.listing.specs.Listing.{block_line, stamp_line, count_line, refusal_text, header, row_text, rows_from, shown, listed};

use answer::{Fault, Refusal};
use labels::{Label, Reading};
use leap::Table;
use stamp::Stamp;
use std::marker::Model;

// The header's 8 bytes and at most 42 for each of 3,600 lines.
pub const MOST: usize = 151208;

// ---- the three lines

// The line k, counted from 0.
fn nth_line(s: &[u8], k: usize) -> &[u8]
    ensures { result.now ≡ line_of s.now k }
{
    let from = lines::line_start(s, k);
    let end = lines::until(s, from, b'\n');
    &s[from..end]
}

// The first line: a block in hex.
fn block_line(line: &[u8]) -> Result<Table, Fault>
    ensures { result ≡ block_line line.now }
{
    if 1024 < line.len() {
        return Err(Fault::from(Refusal::Shape));
    }
    let mut bytes = [0u8; 512];
    let n = lines::hex(line, &mut bytes).ok_or(Refusal::Shape)?;
    let k = lines::front(&bytes, n as usize);
    block::read_block(&bytes[..k])
}

// The second line: a UTC stamp without fraction. A block's table is vouched for up to no month, so no answer has a mark.
fn stamp_line(t: &Table, line: &[u8]) -> Result<(i64, Stamp), Refusal>
    ensures { result ≡ stamp_line t.now line.now }
{
    if 1024 < line.len() || lines::until(line, 0, b'.') != line.len() {
        Err(Refusal::Shape)
    } else {
        text::read_text(t, 0, line).answer
    }
}

// The third line: a count up to 3600.
fn count_line(line: &[u8]) -> Result<usize, Refusal>
    ensures { result ≡ count_line line.now }
{
    if 1024 < line.len() {
        return Err(Refusal::Shape);
    }
    let n = digits::decimal(line, 3600).ok_or(Refusal::Ask)?;
    Ok(n as usize)
}

// ---- what is printed: the buffer is lent with the place of the next text beside it, as `digits::append` takes it (no heap)

// Exact: a listed instant is a whole number of seconds.
fn seconds(instant: i64) -> i64
    ensures { result ≡ quot_z instant (pos 1000000) }
{
    instant / 1000000
}

// Stores the line of a second, and gives where the next one goes. The instant is always there: the table is accepted, and has the label.
fn put_row(t: &Table, l: Label, out: &mut [u8], at: usize) -> usize
    requires { (accepted t.now ≡ true) × (admits t.now l ≡ true) × (at + 42 ≤ length out.old) }
    ensures { Placed out.old at (row_text t.now l) result out.new × (result ≤ at + 42) }
{
    let Ok(instant) = stamp::instant_of(t, 0, Reading { label: l, micro: 0 }).answer else {
        return at;
    };
    let mut picture = [0u8; 19];
    text::write_text(t, instant, 0, 0, 0, &mut picture);
    let b = digits::append(out, at, &picture);
    let c = digits::append(out, b, b" ");
    let d = digits::append_signed(out, c, seconds(instant));
    digits::append(out, d, b"\n")
}

// What the three lines ask for: the seconds from one on.
#[derive(Drop)]
struct Asked {
    table: Table,
    first: Label,
    count: usize,
}

// Clauses see the three. The table is accepted and has the first second, and all lines fit a text.
impl Model for Asked {
    ghost Value = { Table × Label × ℕ };

    ghost view = { λ a. (a.table, a.first, a.count) };

    ghost invariant = { λ a. (accepted a.table ≡ true) × (admits a.table a.first ≡ true) × (a.count ≤ 3600) };
}

impl Asked {
    // The first bad line decides.
    fn read(input: &[u8]) -> Result<Asked, Refusal>
        ensures { shown result ≡ listed input.now }
    {
        let table = block_line(nth_line(input, 0)).map_err(|fault| fault.why)?;
        let (_, stamp) = stamp_line(&table, nth_line(input, 1))?;
        let count = count_line(nth_line(input, 2))?;
        Ok(Asked {
            table,
            first: stamp.reading.label,
            count,
        })
    }

    fn print(&self, out: &mut [u8]) -> usize
        requires { length out.old ≡ 151208 }
        ensures { Placed out.old 0 (header ++ rows_from self.now.0 self.now.2 self.now.1) result out.new }
    {
        let mut l = self.first;
        let mut at = digits::append(out, 0, b"UTC TAI\n");
        for _ in 0..self.count {
            at = put_row(&self.table, l, out, at);
            let Ok(next) = clock::tick(&self.table, l).answer else {
                return at;
            };
            l = next;
        }
        at
    }
}

fn print_refusal(why: Refusal, out: &mut [u8]) -> usize
    requires { 29 ≤ length out.old }
    ensures { Placed out.old 0 (refusal_text why) result out.new }
{
    let a = digits::append(out, 0, b"refused ");
    let b = digits::append_unsigned(out, a, u32::from(why) as u64);
    digits::append(out, b, b"\n")
}

fn print_input(input: &[u8], out: &mut [u8]) -> usize
    requires { length out.old ≡ 151208 }
    ensures { Placed out.old 0 (listed input.now) result out.new }
{
    match Asked::read(input) {
        Ok(asked) => asked.print(out),
        Err(why) => print_refusal(why, out),
    }
}

// Writes what `ticks` prints for an input.
pub fn list(input: &[u8], out: &mut [u8]) -> Result<usize, Refusal>
    ensures { (result ≡ written [] (listed input.now) out.old) × (out.new ≡ buffer_after [] (listed input.now) out.old) }
{
    let mut text = [0u8; MOST];
    let n = print_input(input, &mut text);
    answer::write(&text[..n], out)
}
