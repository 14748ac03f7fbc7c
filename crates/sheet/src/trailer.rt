// The last line of a sheet.
ghost use Rattle.std.specs.Prelude.{◌≡◌};
ghost use Rattle.sheet.specs.SheetText.{trailer_text};
ghost use Rattle.sheet.specs.Texts.{bytes_of};

use crate::text::Text;

// The trailer of a sheet whose root has this number and whose root's line begins at this place.
pub fn trailer(root: u16, place: usize) -> Text
    ensures { bytes_of result ≡ trailer_text root place }
{
    let mut text = Text::new();
    text.push_all(b"top ");
    text.push_number(root as usize);
    text.push_all(b" at ");
    text.push_number(place);
    text.push(b'\n');
    text
}
