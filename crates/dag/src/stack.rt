// The stack on which a tree is built.
ghost use Rattle.std.specs.Prelude.{◌≡◌, ◌+◌, ◌<◌, ◌≤◌, [], ◌∷◌, length, take, drop, slice_index};

// Records in a table of numbers, which the stack fills from its end.
#[derive(Drop)]
pub(crate) struct Stack<'a> {
    cells: &'a mut [u16],
    top: usize,
    ghost within: { top ≤ length cells.now },
}

impl<'a> Stack<'a> {
    ghost use Rattle.dag.specs.Stacks.{records_on};

    pub(crate) fn new(cells: &'a mut [u16]) -> Stack<'a>
        ensures room { result.top ≡ length cells.old }
        ensures empty { records_on result ≡ [] }
    {
        let top = cells.len();
        Stack { cells, top }
    }

    // The records on top.
    pub(crate) fn topmost(&self, count: usize) -> &[u16]
        requires { count ≤ length (records_on self.now) }
        ensures { result.now ≡ take count (records_on self.now) }
    {
        &self.cells[self.top..self.top + count]
    }

    // The record on top.
    pub(crate) fn first(&self) -> u16
        requires { 0 < length (records_on self.now) }
        ensures { result ≡ slice_index (records_on self.now) 0 }
    {
        self.cells[self.top]
    }

    // Puts a record on top, in the place of the `taken` topmost ones.
    pub(crate) fn replace(&mut self, taken: usize, item: u16)
        requires room { 0 < self.old.top }
        requires there { taken ≤ length (records_on self.old) }
        ensures room { self.new.top + 1 ≡ self.old.top + taken }
        ensures records { records_on self.new ≡ item ∷ drop taken (records_on self.old) }
    {
        let at = self.top + taken - 1;
        self.cells[at] = item;
        self.top = at;
    }
}
