// One line of a sheet.
ghost use Rattle.std.specs.Prelude.{◌≡◌, ◌≤◌, ◌∷◌, ◌++◌, length, decimal};
ghost use Rattle.card.specs.Bytes.{letters_of};
ghost use Rattle.sheet.specs.Lines.{line_bytes};
ghost use Rattle.sheet.specs.SheetText.{child_numbers};
ghost use Rattle.sheet.specs.Texts.{bytes_of};

use crate::text::Text;
use card::name::letters;

// A subterm's number, its symbol's name as the symbol's record holds it, and its children's numbers, of which a line shows four
// at most.
#[derive(Clone, Copy)]
pub struct Line<'a> {
    pub number: u16,
    pub name: [u8; 12],
    pub children: &'a [u16],
}

// A line up to its symbol's name.
fn head(number: u16, name: &[u8; 12]) -> Text
    ensures bytes { bytes_of result ≡ decimal number ++ (32 ∷ letters_of name.now) }
    ensures short { length (bytes_of result) ≤ 18 }
{
    let mut text = Text::new();
    text.push_number(number as usize);
    text.push(b' ');
    text.push_all(letters(name));
    text
}

// Behind the name: a blank and its number for each child, and the end of the line.
fn push_children(text: &mut Text, children: &[u16])
    requires few { length children.now ≤ 4 }
    requires room { length (bytes_of text.old) ≤ 18 }
    ensures { bytes_of text.new ≡ bytes_of text.old ++ child_numbers children.now }
{
    for child in children {
        text.push(b' ');
        text.push_number(*child as usize);
    }
    text.push(b'\n');
}

impl Line<'_> {
    // Its bytes.
    pub fn text(&self) -> Text
        ensures { bytes_of result ≡ line_bytes self.now }
    {
        let mut text = head(self.number, &self.name);
        let count = self.children.len().min(4);
        push_children(&mut text, &self.children[..count]);
        text
    }
}
