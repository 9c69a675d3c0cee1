// More runs of `listing`: each of the inputs on standard input is listed. A `%` and a line end stand after every one.
#![tactic(auto)]

ghost use Rattle.std.specs.Prelude.{◌≤◌, length};

use std::io::Read;

// Lists one input. Where the output cannot be written there is nothing more to do.
fn list(rt: &HostRuntime, input: &[u8], out: &mut [u8]) {
    let _ = match listing::list(input, out) {
        Ok(n) => rt.write_all(&out[..lines::front(out, n)]),
        Err(_) => rt.write_all(b"no room\n"),
    };
    let _ = rt.write_all(b"%\n");
}

// Lists each input. while: an input is found only where the one before it ends, behind its `%` and a byte.
fn list_each(rt: &HostRuntime, inputs: &[u8], out: &mut [u8]) {
    let mut rest = inputs;
    while !rest.is_empty() {
        let end = lines::until(rest, 0, b'%');
        list(rt, &rest[..end], out);
        rest = rest.get(end.saturating_add(2)..).unwrap_or(&[]);
    }
}

// Reads to the end of the input or of the buffer; a read that fails is the end of the input. while: a read says how many bytes came.
// Not shared with `desk`, where a read that fails is told from an end.
fn fill(rt: &HostRuntime, buf: &mut [u8]) -> usize
    ensures { result ≤ length buf.new }
{
    let mut n = 0;
    while n < buf.len() {
        let got = rt.stdin().read(&mut buf[n..]).unwrap_or(0);
        if got == 0 {
            break;
        }
        n += got;
    }
    n
}

fn main(rt: HostRuntime) {
    let mut buf = [0u8; 65536];
    let mut out = [0u8; listing::MOST];
    let n = fill(&rt, &mut buf);
    list_each(&rt, &buf[..n], &mut out);
}
