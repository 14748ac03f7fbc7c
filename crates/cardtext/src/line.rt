// What a line of a card is: where it ends, and what it is about.
ghost use Rattle.std.specs.Prelude.{◌≡◌, ◌<◌, ◌∷◌, ◌==◌, length, Decides};
ghost use Rattle.std.specs.List.{position, ContainsAt as Has};
ghost use Rattle.cardtext.specs.Lines.{lines};

// Whether a line states a rule: "=" stands between a rule's sides, and in no other line.
pub fn is_rule(line: &[u8]) -> bool
    ensures { Decides result (Has line.now 61) }
{
    line.contains(&b'=')
}

// Where the first line end stands.
fn line_end(text: &[u8]) -> Option<usize>
    ensures { result ≡ position (λ b. b == 10) text.now }
{
    text.iter().position(|b| *b == b'\n')
}

// The first line of a text, without its end, and what stands behind that end. A `match`, since the two
// arms have nothing in common but their type.
pub(crate) fn split_line(text: &[u8]) -> (&[u8], &[u8])
    requires { 0 < length text.now }
    ensures first { lines text.now ≡ result.0.now ∷ lines result.1.now }
    ensures less { length result.1.now < length text.now }
{
    match line_end(text) {
        Some(n) => (&text[..n], &text[n + 1..]),
        None => (text, &[]),
    }
}
