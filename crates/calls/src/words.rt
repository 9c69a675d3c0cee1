// The words of a line, read one after the other. A bad one is 0, and `end` tells it.
ghost use Rattle.std.specs.Prelude.{◌≤◌, length};

use fields::Cursor;
use labels::Label;

#[derive(Drop)]
pub struct Words<'a> {
    line: &'a [u8],
    cursor: Cursor,
}

impl<'a> Words<'a> {
    // The words behind the first `at` bytes.
    pub(crate) fn behind(line: &'a [u8], at: usize) -> Words<'a> {
        Words {
            line,
            cursor: Cursor { at, fine: true },
        }
    }

    pub(crate) fn next_u32(&mut self) -> u32 {
        let field = fields::u32_field(self.line, self.cursor);
        self.cursor = field.next;
        field.value
    }

    pub(crate) fn next_i32(&mut self) -> i32 {
        let field = fields::i32_field(self.line, self.cursor);
        self.cursor = field.next;
        field.value
    }

    pub(crate) fn next_i64(&mut self) -> i64 {
        let field = fields::i64_field(self.line, self.cursor);
        self.cursor = field.next;
        field.value
    }

    // A number up to `most`.
    pub(crate) fn next_number(&mut self, most: u64) -> u64 {
        let field = fields::number_field(self.line, self.cursor, most);
        self.cursor = field.next;
        field.value
    }

    // The bits of a double.
    pub(crate) fn next_double(&mut self) -> f64 {
        let field = fields::pattern_field(self.line, self.cursor);
        self.cursor = field.next;
        fields::double(field.value)
    }

    // Bytes as hex digits; gives how many there are.
    pub(crate) fn next_bytes(&mut self, out: &mut [u8]) -> usize
        ensures { result ≤ length out.new }
    {
        let field = fields::hex_field(self.line, self.cursor, out);
        self.cursor = field.next;
        lines::front(out, field.value as usize)
    }

    // How much of a buffer is lent, and that much of it.
    pub(crate) fn next_room<'b>(&mut self, buffer: &'b mut [u8; 8192]) -> &'b mut [u8] {
        let room = self.next_number(8192) as usize;
        let size = lines::front(buffer, room);
        &mut buffer[..size]
    }

    // Y MO D H MI S
    pub(crate) fn next_label(&mut self) -> Label {
        let year = self.next_u32();
        let month = self.next_u32();
        let day = self.next_u32();
        let hour = self.next_u32();
        let minute = self.next_u32();
        let second = self.next_u32();
        Label {
            year,
            month,
            day,
            hour,
            minute,
            second,
        }
    }

    // Nothing but the end of the line is left, and every word was good.
    pub(crate) fn end(&self) -> Option<()> {
        fields::ended(self.line, self.cursor).then_some(())
    }
}
