// Setting a table to blank records.
ghost use Rattle.std.specs.Prelude.{◌≡◌, length, replicate};

// Every element becomes the blank one. No `fill`: it asks that copies of the element are equal to it, which not every `Copy` type
// says.
pub fn wipe<T: Copy>(table: &mut [T], blank: T)
    ensures { table.new ≡ replicate (length table.old) blank }
{
    for x in table.iter_mut() {
        *x = blank;
    }
}
