// The answers that are not written out yet.
use answer::{Fault, Refusal};
use std::io;

// `begin` is where the last answer begins.
#[derive(Drop)]
pub struct Output {
    bytes: [u8; 65536],
    begin: usize,
    used: usize,
}

impl Output {
    pub(crate) fn new() -> Output {
        Output {
            bytes: [0; 65536],
            begin: 0,
            used: 0,
        }
    }

    pub(crate) fn text(&mut self, text: &[u8]) {
        self.used = digits::append(&mut self.bytes, self.used, text);
    }

    // The blank before a word, unless it is an answer's first.
    fn blank(&mut self) {
        if self.begin < self.used {
            self.text(b" ");
        }
    }

    pub(crate) fn number(&mut self, z: i64) {
        self.blank();
        self.used = digits::append_signed(&mut self.bytes, self.used, z);
    }

    pub(crate) fn numbers(&mut self, all: &[i64]) {
        for z in all {
            self.number(*z);
        }
    }

    // A length or a place; none is so large that it would not be a signed number.
    pub(crate) fn size(&mut self, n: usize) {
        self.number(i64::try_from(n).unwrap_or(0));
    }

    // The number of a refusal; 0 for an answer.
    pub(crate) fn refusal(&mut self, why: Option<Refusal>) {
        self.number(why.map_or(0, |why| i64::from(u32::from(why))));
    }

    // A refusal's number and the place of its byte; 0 and 0 for an answer.
    pub(crate) fn fault(&mut self, fault: Option<Fault>) {
        self.refusal(fault.map(|fault| fault.why));
        self.size(fault.map_or(0, |fault| fault.at));
    }

    pub(crate) fn marks(&mut self, beyond: bool) {
        self.number(i64::from(answer::marks_of(beyond)));
    }

    pub(crate) fn hex(&mut self, bytes: &[u8]) {
        self.blank();
        self.used = lines::append_hex(&mut self.bytes, self.used, bytes);
    }

    // A double's bits.
    pub(crate) fn double(&mut self, x: f64) {
        self.hex(&fields::pattern(x).to_be_bytes());
    }

    pub(crate) fn end_line(&mut self) {
        self.text(b"\n");
        self.begin = self.used;
    }

    // Whether there is room for a further answer, which has below 20 KiB.
    pub(crate) fn has_room(&self) -> bool {
        self.used < 40960
    }

    // Writes the answers out.
    pub(crate) fn flush(&mut self, rt: &HostRuntime) -> io::Result<()> {
        let n = lines::front(&self.bytes, self.used);
        self.begin = 0;
        self.used = 0;
        rt.write_all(&self.bytes[..n])
    }
}
