// Standard input in chunks, whose lines are answered. Memory is constant: std's lines and BufReader would put a line of any length on the heap.
// The reading is like that of `desk`, not shared: the state that is carried differs, and there is no contract to share.
use crate::answers::answer;
use crate::output::Output;
use leap::Table;
use std::io;
use std::io::Read;

fn complain(rt: &HostRuntime, text: &str) {
    let _ = rt.eprintln(text);
}

// What stands between two chunks: the bytes held of a line, the answers so far and the table.
#[derive(Drop)]
struct Session {
    line: [u8; 140001],
    held: usize,
    out: Output,
    table: Table,
}

impl Session {
    fn new() -> Session {
        Session {
            line: [0; 140001],
            held: 0,
            out: Output::new(),
            table: leap::bulletin_c(),
        }
    }

    // Answers the line that is held. One that fills its buffer is over-long, and answered as an empty line is.
    fn answer_line(&mut self, rt: &HostRuntime) -> io::Result<()> {
        if !self.out.has_room() {
            self.out.flush(rt)?;
        }
        let n = if self.held < self.line.len() {
            self.held
        } else {
            0
        };
        answer(&self.line[..n], &mut self.table, &mut self.out);
        self.held = 0;
        Ok(())
    }

    // Answers every line that ends in the chunk, and writes the answers out. while: `take_line` says where the next line begins.
    fn answer_chunk(&mut self, rt: &HostRuntime, chunk: &[u8]) -> io::Result<()> {
        let mut at = 0;
        while at < chunk.len() {
            let cut = lines::take_line(chunk, at, &mut self.line, self.held);
            at = cut.at;
            self.held = cut.len;
            if cut.ended {
                self.answer_line(rt)?;
            }
        }
        self.out.flush(rt)
    }

    // The last line may lack its end.
    fn end(&mut self, rt: &HostRuntime) -> io::Result<()> {
        if self.held == 0 {
            return Ok(());
        }
        self.answer_chunk(rt, b"\n")
    }
}

// Reads and answers to the end of the input: what came of one read is answered before the next. A read that fails is told, and is the end of the input.
// A proved loop has to end, and nothing says that the input does: the reads are counted up to a number that no run reaches.
fn answer_all(rt: &HostRuntime) -> io::Result<()> {
    let mut session = Session::new();
    let mut chunk = [0u8; 65536];
    for _ in 0..u64::MAX {
        match rt.stdin().read(&mut chunk) {
            Ok(0) => break,
            Ok(n) => session.answer_chunk(rt, &chunk[..n])?,
            Err(_) => {
                complain(rt, "calls: the input cannot be read");
                break;
            }
        }
    }
    session.end(rt)
}

// Where the output cannot be written there is nothing more to do.
pub(crate) fn answer_input(rt: &HostRuntime) {
    if answer_all(rt).is_err() {
        complain(rt, "calls: the output cannot be written");
    }
}
