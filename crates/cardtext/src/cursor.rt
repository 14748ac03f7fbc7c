// The cursor over a text's lines.
ghost use Rattle.std.specs.Prelude.{◌≡◌, ◌+◌, ◌^◌, ◌<◌, length, MatchOption};
ghost use Rattle.std.specs.Iterator.{item_count};

use crate::line::split_line;

// Hands out the lines of a text, and counts them.
#[derive(Drop)]
pub struct Lines<'a> {
    // behind the line that was handed out last
    rest: &'a [u8],
    number: usize,
    // each line takes a byte at least, so the count cannot overflow
    ghost counts: { number + length rest.now < 2 ^ 64 },
}

impl<'a> Lines<'a> {
    ghost use Rattle.cardtext.specs.Cursors.{rest_lines};
    ghost use Rattle.cardtext.specs.Lines.{lines};

    // Before the first line of the text.
    pub fn new(text: &'a [u8]) -> Lines<'a>
        ensures all { rest_lines result ≡ lines text.now }
        ensures none { result.number ≡ 0 }
    {
        Lines {
            rest: text,
            number: 0,
        }
    }

    // The number of the line that was handed out last, counted from 1; 0 before the first.
    pub fn number(&self) -> usize
        ensures { result ≡ self.now.number }
    {
        self.number
    }
}

impl<'a> Iterator for Lines<'a> {
    ghost use Rattle.cardtext.specs.Cursors.{HandsOut, rest_lines, Spent};

    type Item = &'a [u8];

    ghost next_gives = { λ s r t. MatchOption r (Spent s t) (λ line. HandsOut s t line.now) };

    ghost remaining = { item_count rest_lines };

    // The next line, without its end.
    fn next(&mut self) -> Option<&'a [u8]> {
        if self.rest.is_empty() {
            return None;
        }
        let (line, rest) = split_line(self.rest);
        self.rest = rest;
        self.number += 1;
        Some(line)
    }
}
