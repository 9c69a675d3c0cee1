// What is written, and the complaints.
use std::io;

pub(crate) fn complain(rt: &HostRuntime, text: &str) {
    let _ = rt.eprintln(text);
}

// Writes the first n bytes out.
pub(crate) fn put(rt: &HostRuntime, out: &[u8], n: usize) -> io::Result<()> {
    rt.write_all(&out[..lines::front(out, n)])
}
