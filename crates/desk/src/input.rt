// Standard input in chunks, whose lines are answered. Memory is constant: std's lines and BufReader would put a line of any length on the heap.
// The reading is like that of `calls`, not shared: the state that is carried differs, and there is no contract to share.
use crate::files::answer;
use crate::output::{complain, put};
use crate::tally::Tally;
use leap::Table;
use std::io;
use std::io::Read;

// What stands between two chunks: the bytes held of a line, those of answers, the lines so far and the table.
// A line has up to 1,024 bytes: one more shows that it has too many.
#[derive(Drop)]
struct Desk {
    line: [u8; 1025],
    held: usize,
    out: [u8; 65536],
    used: usize,
    tally: Tally,
    table: Table,
}

impl Desk {
    fn new() -> Desk {
        Desk {
            line: [0; 1025],
            held: 0,
            out: [0; 65536],
            used: 0,
            tally: Tally::new(),
            table: leap::bulletin_c(),
        }
    }

    // Writes the answers out.
    fn flush(&mut self, rt: &HostRuntime) -> io::Result<()> {
        let used = self.used;
        self.used = 0;
        put(rt, &self.out, used)
    }

    // Answers the line that is held, one that fills its buffer as it stands there: it is longer than a line may be.
    // Answers are written out first where there is no room for one more, which has up to 8 KiB.
    fn answer_line(&mut self, rt: &HostRuntime) -> io::Result<()> {
        if 57344 < self.used {
            self.flush(rt)?;
        }
        let n = lines::front(&self.line, self.held);
        let answered = answer(rt, &self.line[..n], &self.table, &mut self.out, self.used);
        self.held = 0;
        self.used = answered.said.at;
        self.tally.count(answered.said.good);
        self.table = answered.table;
        Ok(())
    }

    // Answers every line that ends in the chunk, and writes the answers out. while: `take_line` says where the next line begins.
    fn answer_chunk(&mut self, rt: &HostRuntime, chunk: &[u8]) -> io::Result<()> {
        let mut at = 0;
        while at < chunk.len() {
            let cut = lines::take_line(chunk, at, &mut self.line, self.held);
            at = cut.at;
            self.held = cut.len;
            if cut.ended {
                self.answer_line(rt)?;
            }
        }
        self.flush(rt)
    }

    // The last line may lack its end. The summary comes last.
    fn end(&mut self, rt: &HostRuntime) -> io::Result<()> {
        if self.held != 0 {
            self.answer_chunk(rt, b"\n")?;
        }
        let tally = self.tally;
        let n = wording::summary(tally.lines, tally.bad, &tally.first, &mut self.out, 0);
        put(rt, &self.out, n)
    }
}

// Reads and answers to the end of the input: what came of one read is answered before the next. A read that fails is told, and is the end of the input.
// A proved loop has to end, and nothing says that the input does: the reads are counted up to a number that no run reaches.
pub(crate) fn answer_input(rt: &HostRuntime) -> io::Result<()> {
    let mut desk = Desk::new();
    let mut chunk = [0u8; 65536];
    for _ in 0..u64::MAX {
        match rt.stdin().read(&mut chunk) {
            Ok(0) => break,
            Ok(n) => desk.answer_chunk(rt, &chunk[..n])?,
            Err(_) => {
                complain(rt, "desk: the input cannot be read");
                break;
            }
        }
    }
    desk.end(rt)
}
