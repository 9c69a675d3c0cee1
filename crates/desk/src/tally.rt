// How many lines there were and how many of them were not good, with the numbers of the first 20 of these: memory is constant.
#[derive(Clone, Copy)]
pub struct Tally {
    pub lines: u64,
    pub bad: u64,
    pub first: [u64; 20],
}

impl Tally {
    pub(crate) fn new() -> Tally {
        Tally {
            lines: 0,
            bad: 0,
            first: [0; 20],
        }
    }

    pub(crate) fn count(&mut self, good: bool) {
        self.lines = self.lines.saturating_add(1);
        if good {
            return;
        }
        if self.bad < 20 {
            self.first[self.bad as usize] = self.lines;
        }
        self.bad = self.bad.saturating_add(1);
    }
}
