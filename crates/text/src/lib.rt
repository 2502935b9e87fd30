// A text that is made from its front on, and numbers in decimal.
#![tactic(auto)]

ghost use Rattle.std.specs.Prelude.{◌≡◌, [], ◌∷◌, ◌++◌, take};
ghost use Rattle.rules.specs.Trace.{decimal as decimal_of, signed as signed_of, end_line};
ghost use Rattle.text.specs.View.{max_line, text_of};

// Bytes of a text, at most: those of the longest line, a state's, with every number as long as it can be: m of five digits, two masks of three,
// eight priorities of six and eight counts of five, a space before each but the first, and the end of the line.
const MAX_LINE: usize = 118;

// A text: the first `len` of the bytes. There is no heap here, so it is no String.
#[derive(Clone, Copy, Debug)]
pub struct Text {
    pub bytes: [u8; MAX_LINE],
    pub len: u8,
}

impl Text {
    // The text with nothing in it.
    pub fn empty() -> Text
        ensures { text_of result ≡ [] }
    {
        Text {
            bytes: [0u8; MAX_LINE],
            len: 0,
        }
    }

    // The bytes of the text.
    pub fn as_bytes(&self) -> &[u8]
        ensures { result.now ≡ text_of self.now }
    {
        self.bytes.get(..self.len as usize).unwrap_or(&self.bytes)
    }

    // The text with one byte more, where there is room for it.
    pub fn put(mut self, byte: u8) -> Text
        ensures { text_of result ≡ take max_line (text_of self ++ (byte ∷ [])) }
    {
        let at = self.len as usize;
        if at < MAX_LINE {
            self.bytes[at] = byte;
            self.len += 1;
        }
        self
    }

    // The text with bytes after it, as far as there is room.
    pub fn words(self, bytes: &[u8]) -> Text
        ensures { text_of result ≡ take max_line (text_of self ++ bytes.now) }
    {
        let mut text = self;
        for byte in bytes {
            text = text.put(*byte);
        }
        text
    }

    // The text with a number in decimal after it, as far as there is room.
    pub fn decimal(self, x: u32) -> Text
        ensures { text_of result ≡ take max_line (text_of self ++ decimal_of x) }
    {
        self.words(itoa::Buffer::new().format(x).as_bytes())
    }

    // The text with a priority in decimal after it, below 0 with a minus sign, as far as there is room.
    pub fn signed(self, p: i16) -> Text
        ensures { text_of result ≡ take max_line (text_of self ++ signed_of p) }
    {
        let signed = if p < 0 { self.put(b'-') } else { self };
        signed.words(itoa::Buffer::new().format(p.unsigned_abs()).as_bytes())
    }
}

// The last line: `end` and the number that stopped the trace.
pub fn end_line(number: u8) -> Text
    ensures { text_of result ≡ end_line number }
{
    Text::empty()
        .words(b"end ")
        .decimal(number as u32)
        .put(b'\n')
}
