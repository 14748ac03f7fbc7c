// A short text.
ghost use Rattle.std.specs.Prelude.{◌≤◌};

mod writing;

// At most 48 bytes: a number has 5 digits, a name 12 letters, and a symbol 4 children, so a line has 43 bytes at most.
// The length stands beside the array because a text may be copied, which the kit's `ArrayVec` may not. Its `ArrayString` may, but
// asks for UTF-8, and a record's name may be any bytes.
#[derive(Clone, Copy)]
pub struct Text {
    bytes: [u8; 48],
    count: usize,
    ghost few: { count ≤ 48 },
}
