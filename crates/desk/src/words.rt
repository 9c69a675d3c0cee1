// The words after the program's name, which are one line.
use crate::files::answer;
use crate::output::put;
use std::env::{Env, FillError};
use std::io;

// Whether there is a word i, where the program's name is word 0.
fn is_there(rt: &HostRuntime, i: usize) -> bool {
    let mut buf = [0u8; 1];
    !matches!(rt.arg(i, &mut buf), Err(FillError::NotPresent))
}

// How many words there are, the program's name among them.
pub(crate) fn arg_count(rt: &HostRuntime) -> usize {
    for i in 0..usize::MAX {
        if !is_there(rt, i) {
            return i;
        }
    }
    usize::MAX
}

// The bytes of word i; of one that is longer than the buffer its first ones are there.
fn word(rt: &HostRuntime, i: usize, buf: &mut [u8]) -> usize {
    match rt.arg(i, buf) {
        Ok(n) => n,
        Err(FillError::TooLong) => buf.len(),
        Err(FillError::NotPresent) => 0,
    }
}

// Holds word i, behind a blank where it is not the first.
fn join_word(rt: &HostRuntime, i: usize, line: &mut [u8], held: usize) -> usize {
    let mut buf = [0u8; 1025];
    let n = word(rt, i, &mut buf);
    let blank: &[u8] = if i == 1 { b"" } else { b" " };
    let next = lines::hold(line, held, blank);
    lines::hold(line, next, &buf[..lines::front(&buf, n)])
}

// Answers the words below `count`. A line has up to 1,024 bytes: one more shows that it has too many.
pub(crate) fn answer_words(rt: &HostRuntime, count: usize) -> io::Result<()> {
    let mut line = [0u8; 1025];
    let mut out = [0u8; 65536];
    let mut held = 0;
    for i in 1..count {
        held = join_word(rt, i, &mut line, held);
    }
    let n = lines::front(&line, held);
    let answered = answer(rt, &line[..n], &leap::bulletin_c(), &mut out, 0);
    put(rt, &out, answered.said.at)
}
