// The cleaner: a text without its blanks, tabs and notes.
ghost use Rattle.std.specs.Prelude.{◌≡◌, ◌≤◌, length, take, MatchOption};
ghost use Rattle.std.specs.Iterator.{item_count, YieldsFirst};
ghost use Rattle.cardtext.specs.Cleaning.{blank, cleaned, cleaned_behind, Holds, in_note, TooShort};

// Whether a byte is part of a note, where `noted` says it of the byte before.
fn is_noted(noted: bool, b: u8) -> bool
    ensures { result ≡ in_note noted b }
{
    b != b'\n' && (noted || b == b'#')
}

fn is_blank(b: u8) -> bool
    ensures { result ≡ blank b }
{
    matches!(b, b' ' | b'\t')
}

// The bytes of a text that are kept. Whether one is depends on the bytes before it, so this is an iterator of its own and no filter.
#[derive(Drop)]
struct Kept<'a> {
    text: &'a [u8],
    // whether the byte before the text is part of a note; no value depends on it
    noted: bool,
}

impl Iterator for Kept<'_> {
    type Item = u8;

    ghost next_gives = { YieldsFirst (λ s. cleaned_behind s.noted s.text.now) };

    ghost remaining = { item_count (λ s. cleaned_behind s.noted s.text.now) };

    fn next(&mut self) -> Option<u8> {
        while let Some((b, text)) = self.text.split_first() {
            self.text = text;
            self.noted = is_noted(self.noted, *b);
            if !self.noted && !is_blank(*b) {
                return Some(*b);
            }
        }
        None
    }
}

// Copies what is kept of the text to the buffer's front, and answers how much that is. A `for` over the slots: how many were filled is
// the answer, which a `zip` does not tell.
fn copy_kept(text: &[u8], buffer: &mut [u8]) -> usize
    requires { length text.now ≤ length buffer.old }
    ensures kept { take result buffer.new ≡ cleaned text.now }
    ensures within { result ≤ length text.now }
{
    let mut kept = Kept { text, noted: false };
    for (n, slot) in buffer.iter_mut().enumerate() {
        let Some(b) = kept.next() else {
            return n;
        };
        *slot = b;
    }
    buffer.len()
}

// Cleans the text into the buffer, with zeros behind, and answers the cleaned text's length. A buffer that is shorter
// than the text is left as it is.
pub fn clean(text: &[u8], buffer: &mut [u8]) -> Option<usize>
    ensures { MatchOption result
        (TooShort text.now buffer.old buffer.new)
        (Holds text.now buffer.old buffer.new) }
{
    if buffer.len() < text.len() {
        return None;
    }
    let n = copy_kept(text, buffer);
    buffer[n..].fill(0);
    Some(n)
}
