// A line answered, with the file that it names.
use leap::Table;
use std::fs::File;
use std::io::Read;
use std::{fs, io, str};
use tablewords::Loaded;

// Reads to the end of the file or of the buffer. A directory opens, and cannot be read.
// while: a read says how many bytes came. Not std's read_to_end, which puts a file of any size on the heap.
fn fill(file: &mut File, buf: &mut [u8]) -> io::Result<usize> {
    let mut n = 0;
    while n < buf.len() {
        let got = file.read(&mut buf[n..])?;
        if got == 0 {
            break;
        }
        n += got;
    }
    Ok(n)
}

// The standard library opens a file by a name in UTF-8 alone: one of other bytes counts as a file that cannot be read.
fn read_file(rt: &HostRuntime, path: &[u8], buf: &mut [u8]) -> Option<usize> {
    let name = str::from_utf8(path).ok()?;
    let mut file = fs::open(rt, name).ok()?;
    fill(&mut file, buf).ok()
}

// One byte more is read than is taken of a kernel or of cards, so that a longer one is seen.
fn answer_file(
    rt: &HostRuntime,
    path: &[u8],
    line: &[u8],
    t: &Table,
    out: &mut [u8],
    at: usize,
) -> Loaded {
    let mut file = [0u8; 65537];
    let read = read_file(rt, path, &mut file);
    let n = lines::front(&file, read.unwrap_or(0));
    wording::answer(line, t, read.is_some(), &file[..n], out, at)
}

pub(crate) fn answer(
    rt: &HostRuntime,
    line: &[u8],
    t: &Table,
    out: &mut [u8],
    at: usize,
) -> Loaded {
    let name = wording::file_of(line);
    if name.from < name.end {
        return answer_file(rt, &line[name.from..name.end], line, t, out, at);
    }
    wording::answer(line, t, false, b"", out, at)
}
