// Marks: a byte for each record, all 0 but while a walk is under way.
ghost use Rattle.dag.specs.Walks.{Clear};

// Sets every mark to 0.
pub fn wipe(marks: &mut [u8])
    ensures { Clear marks.new }
{
    marks.fill(0);
}

// Marks in use. They are wiped when the guard ends, by whatever way the function that made it is left.
pub struct Marks<'a>(pub &'a mut [u8]);

impl Drop for Marks<'_> {
    fn drop(self)
        ensures { Clear self.exit.0.now }
    {
        wipe(self.0);
        let Marks(_) = self;
    }
}
