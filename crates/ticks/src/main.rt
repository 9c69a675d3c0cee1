// Reads three lines and nothing past the third, and prints what `listing` says of them.
// That 3,075 bytes are enough is `enough_read` of listing's promise; past a third line's end there is nothing that it looks at.
#![tactic(auto)]

ghost use Rattle.std.specs.Prelude.{◌≤◌, length};

use std::io::Read;

fn complain(rt: &HostRuntime, text: &str) {
    let _ = rt.eprintln(text);
}

// The next byte; none at the end of the input. A read that fails is told, and is the end of the input.
fn next_byte(rt: &HostRuntime) -> Option<u8> {
    let mut one = [0u8; 1];
    match rt.stdin().read(&mut one) {
        Ok(0) => None,
        Ok(_) => Some(one[0]),
        Err(_) => {
            complain(rt, "ticks: the input cannot be read");
            None
        }
    }
}

// Reads byte by byte up to the third line end, the end of the input or the end of the buffer, and gives how many bytes came.
// Not bytes of a BufReader: it would take more of the input than three lines.
fn fill(rt: &HostRuntime, buf: &mut [u8]) -> usize
    ensures { result ≤ length buf.new }
{
    let mut ends = 0u8;
    for (n, place) in buf.iter_mut().enumerate() {
        let Some(byte) = next_byte(rt) else {
            return n;
        };
        *place = byte;
        if byte == b'\n' {
            ends += 1;
        }
        if ends == 3 {
            return n + 1;
        }
    }
    buf.len()
}

fn main(rt: HostRuntime) {
    let mut buf = [0u8; 3075];
    let mut out = [0u8; listing::MOST];
    let n = fill(&rt, &mut buf);
    if let Ok(size) = listing::list(&buf[..n], &mut out) {
        let end = lines::front(&out, size);
        if rt.write_all(&out[..end]).is_err() {
            complain(&rt, "ticks: the output cannot be written");
        }
    }
}
