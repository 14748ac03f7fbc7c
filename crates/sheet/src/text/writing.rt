// Building a text, and putting it into a buffer.
ghost use Rattle.std.specs.Prelude.{◌≡◌, ◌+◌, ◌<◌, ◌≤◌, [], ◌∷◌, ◌++◌, length, decimal, MatchOption};
ghost use Rattle.sheet.specs.Texts.{bytes_of, PutAtFront};

use crate::text::Text;
use itoa::Buffer;

impl Text {
    pub(crate) fn new() -> Text
        ensures { bytes_of result ≡ [] }
    {
        Text {
            bytes: [0; 48],
            count: 0,
        }
    }

    // Its bytes.
    pub fn as_bytes(&self) -> &[u8]
        ensures { result.now ≡ bytes_of self.now }
    {
        &self.bytes[..self.count]
    }

    pub(crate) fn push(&mut self, b: u8)
        requires { length (bytes_of self.old) < 48 }
        ensures { bytes_of self.new ≡ bytes_of self.old ++ (b ∷ []) }
    {
        self.bytes[self.count] = b;
        self.count += 1;
    }

    pub(crate) fn push_all(&mut self, bytes: &[u8])
        requires { length (bytes_of self.old) + length bytes.now ≤ 48 }
        ensures { bytes_of self.new ≡ bytes_of self.old ++ bytes.now }
    {
        let end = self.count + bytes.len();
        self.bytes[self.count..end].copy_from_slice(bytes);
        self.count = end;
    }

    pub(crate) fn push_number(&mut self, n: usize)
        requires { length (bytes_of self.old) + length (decimal n) ≤ 48 }
        ensures { bytes_of self.new ≡ bytes_of self.old ++ decimal n }
    {
        self.push_all(Buffer::new().format(n).as_bytes());
    }

    // Puts the text at the front of a buffer and answers its length, or leaves a buffer that is too short as it is.
    pub fn write_to(&self, out: &mut [u8]) -> Option<usize>
        ensures { MatchOption result
            ((length out.old < length (bytes_of self.now)) × (out.new ≡ out.old))
            (λ n. PutAtFront (bytes_of self.now) n out.old out.new) }
    {
        let text = self.as_bytes();
        if out.len() < text.len() {
            return None;
        }
        out[..text.len()].copy_from_slice(text);
        Some(text.len())
    }
}
