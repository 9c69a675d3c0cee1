// The leap table: which tables are accepted, TAI-UTC by months, and the table of Bulletin C.
#![tactic(auto)]

mod bulletin;

ghost use Rattle.std.specs.Prelude.{◌≡◌, ◌≤◌, ◌<◌, ◌+◌, leb};
ghost use Rattle.std.proofs.Math.IntN.{suc_ℤ};
ghost use Rattle.laws.specs.Tests.{eq_z, all_below};
ghost use Rattle.leap.specs.Readers.{no_table, found, refused_at, judged};
ghost use Rattle.leap.specs.Leap.{tabled, vouched_to, one_apart, first_right, later_right, unused_right, place_right, vouched_right, accepted, epoch, last_begun, offset_at, near_at, top, beyond, bulletin_c};

use answer::{Fault, Refusal};

// `count` entries, each a month (January 1972 is 0) and TAI-UTC in seconds from its first day. Unused places are zero.
// `vouched` is the last month that the table is good for, plus one; 0 where none is given. C has it so: the fields are 130 words.
#[derive(Clone, Copy)]
pub struct Table {
    pub count: usize,
    pub months: [u32; 64],
    pub offsets: [i32; 64],
    pub vouched: u32,
}

// January 1972, the table's month 0, among the calendar's months from January of year 0.
pub const EPOCH: u32 = 23664;

// December 9999 in the table's months.
pub const LAST_ENTRY_MONTH: u32 = 96335;

// TAI-UTC in a month and in the month after it.
#[derive(Clone, Copy)]
pub struct OffsetPair {
    pub here: i32,
    pub next: i32,
}

impl Table {
    pub fn new(count: usize, months: [u32; 64], offsets: [i32; 64], vouched: u32) -> Table
        ensures { result ≡ vouched_to vouched (tabled count months offsets) }
    {
        Table {
            count,
            months,
            offsets,
            vouched,
        }
    }

    // No entry: what a reader begins with, and what stands in for a table that is refused.
    pub fn empty() -> Table
        ensures { result ≡ no_table }
    {
        Table::new(0, [0; 64], [0; 64], 0)
    }

    // ---- the check: one place at a time on plain numbers, and a flag in each loop, so that the loops compile to vectors

    // The first entry, and each later one after the entry before it.
    fn used_right(&self) -> bool
        requires { (1 ≤ self.now.count) × (self.now.count ≤ 64) }
        ensures { result ≡ all_below (place_right self.now) self.now.count }
    {
        let mut ok = first_right(self.months[0], self.offsets[0]);
        for k in 1..self.count {
            let later = later_right(
                self.months[k - 1],
                self.offsets[k - 1],
                self.months[k],
                self.offsets[k],
            );
            ok = ok & later;
        }
        ok
    }

    // The places in use, and then the unused ones.
    fn all_right(&self) -> bool
        requires { (1 ≤ self.now.count) × (self.now.count ≤ 64) }
        ensures { result ≡ all_below (place_right self.now) 64 }
    {
        let mut ok = self.used_right();
        for k in self.count..64 {
            ok = ok & unused_right(self.months[k], self.offsets[k]);
        }
        ok
    }

    #[tactic(auto, unfolding(crate::specs::Leap::accepted))]
    pub fn is_accepted(&self) -> bool
        ensures { result ≡ accepted self.now }
    {
        if !(1..=64).contains(&self.count) {
            return false;
        }
        self.all_right() && vouched_right(self.months[self.count - 1], self.vouched)
    }

    // ---- TAI-UTC

    // The last place in use.
    fn top(&self) -> usize
        ensures { (result ≡ top self.now.count) × (result < 64) }
    {
        self.count.min(64).saturating_sub(1)
    }

    // TAI-UTC in the calendar's month m, counted from January of year 0.
    pub fn offset_at(&self, m: u32) -> i32
        ensures { result ≡ offset_at self.now m }
    {
        let k = last_begun(&self.months, self.top(), m as u64);
        self.offsets[k]
    }

    // TAI-UTC in the calendar's month m and in the one after it, by one walk: what has begun in m is among what has begun in m + 1.
    pub fn near(&self, m: u32) -> OffsetPair
        ensures { result ≡ near_at self.now m }
    {
        let after = last_begun(&self.months, self.top(), m as u64 + 1);
        let at = last_begun(&self.months, after, m as u64);
        OffsetPair {
            here: self.offsets[at],
            next: self.offsets[after],
        }
    }
}

// What a reader of tables answers: the table that it found, or a refusal with its place.
pub fn found(t: &Table) -> Result<Table, Fault>
    ensures { result ≡ found t.now }
{
    Ok(*t)
}

pub fn refused_at(why: Refusal, at: usize) -> Result<Table, Fault>
    ensures { result ≡ refused_at why at }
{
    Err(Fault { why, at })
}

// A table that was read, judged: an accepted one is the answer, another is refused without a place.
pub fn judge(t: &Table) -> Result<Table, Fault>
    ensures { result ≡ judged t.now }
{
    if t.is_accepted() {
        return found(t);
    }
    refused_at(Refusal::Table, 0)
}

// ---- one place of a table

// Only the lesser of two numbers is raised by one, so the sum fits.
fn one_above(low: i32, high: i32) -> bool
    ensures { result ≡ eq_z high (suc_ℤ low) }
{
    low < high && high == low + 1
}

fn one_apart(a: i32, b: i32) -> bool
    ensures { result ≡ one_apart a b }
{
    one_above(a, b) | one_above(b, a)
}

fn first_right(month: u32, offset: i32) -> bool
    ensures { result ≡ first_right month offset }
{
    (month == 0) & (offset == 10)
}

// An entry after the one in month `prior` with offset `before`.
fn later_right(prior: u32, before: i32, month: u32, offset: i32) -> bool
    ensures { result ≡ later_right prior before month offset }
{
    (prior < month) & ((month <= LAST_ENTRY_MONTH) & one_apart(before, offset))
}

fn unused_right(month: u32, offset: i32) -> bool
    ensures { result ≡ unused_right month offset }
{
    (month == 0) & (offset == 0)
}

// A month number as a table has it, where the last entry's month is `last`.
pub fn vouched_right(last: u32, vouched: u32) -> bool
    ensures { result ≡ vouched_right last vouched }
{
    vouched == 0 || (last < vouched && vouched <= LAST_ENTRY_MONTH + 1)
}

// A month of the table has begun in the calendar's month m.
fn has_begun(month: u32, m: u64) -> bool
    ensures { result ≡ leb (epoch + month) m }
{
    EPOCH as u64 + month as u64 <= m
}

// Of the entries 0 to `from`, the last that has begun in the calendar's month m.
// while: the walk goes down and ends at the first place, whose month is not asked; a reversed range needs the yielded places in its proof.
fn last_begun(months: &[u32; 64], from: usize, m: u64) -> usize
    requires { from < 64 }
    ensures { (result ≡ last_begun months.now m from) × (result < 64) }
{
    let mut k = from;
    while 0 < k {
        if has_begun(months[k], m) {
            return k;
        }
        k -= 1;
    }
    0
}

// ---- beyond

// The calendar's month m is later than the month that a table is vouched for, if one is given.
pub fn beyond(vouched: u32, m: u64) -> bool
    ensures { result ≡ beyond vouched m }
{
    vouched != 0 && EPOCH as u64 + vouched as u64 <= m
}

// ---- Bulletin C

pub fn bulletin_c() -> Table
    ensures { result ≡ bulletin_c }
{
    Table::new(28, bulletin::MONTHS, bulletin::OFFSETS, 0)
}
