// The text of a tree, cut at a limit of bytes.
ghost use Rattle.std.specs.Prelude.{ℕ, List, [], ◌∷◌, ◌++◌, IfOk, OnOk};
ghost use Rattle.explicit.specs.Meaning.{name_of, tree_of};
ghost use Rattle.notation.specs.Text.{Holds, text as text_of};

use explicit::card::{Symbol, name};
use explicit::tree::Tree;
use std::alloc::{AllocError, Global};
use std::fmt;

// How many bytes a line holds.
pub const LIMIT: usize = 200;

// A tree, to be shown by the names of these symbols.
#[derive(Clone, Copy)]
pub struct Named<'a> {
    pub symbols: &'a [Symbol],
    pub tree: &'a Tree,
}

// A constant is its name; any other tree is the name and, in brackets, its children with commas between.
impl fmt::Display for Named<'_> {
    ghost use Rattle.std.specs.Prelude.{Some};
    ghost use Rattle.explicit.specs.Meaning.{name_of, tree_of};
    ghost use Rattle.notation.specs.Text.{text};

    ghost output = { λ x. Some (text (name_of x.symbols.now) (tree_of x.tree.now)) };

    fn fmt<W: fmt::Write>(&self, f: &mut fmt::Formatter<W>) -> fmt::Result {
        let symbols = self.symbols;
        f.write_str(name(symbols, self.tree.symbol))?;
        let Some((first, rest)) = self.tree.children.split_first() else {
            return Ok(());
        };
        f.write_str("(")?;
        Named {
            symbols,
            tree: first,
        }
        .fmt(f)?;
        for tree in rest {
            f.write_str(",")?;
            Named { symbols, tree }.fmt(f)?;
        }
        f.write_str(")")
    }
}

// The front of a text, and whether the text went on. Both kinds of line have bytes, so a flag is plainer than two variants.
#[derive(Drop)]
pub struct Line {
    pub bytes: Vec<u8>,
    pub cut: bool,
}

// A tree's text, written once more: so it costs no memory past the limit, and half the time that showing it takes.
impl Line {
    fn put(&mut self, byte: u8) -> Result<(), AllocError>
        ensures { OnOk result ((w : List ℕ) → Holds self.old w → Holds self.new (w ++ byte ∷ [])) }
    {
        if self.bytes.len() < LIMIT {
            self.bytes.push(byte)?;
        } else {
            self.cut = true;
        }
        Ok(())
    }

    fn put_all(&mut self, bytes: &[u8]) -> Result<(), AllocError>
        ensures { OnOk result ((w : List ℕ) → Holds self.old w → Holds self.new (w ++ bytes.now)) }
    {
        for b in bytes {
            self.put(*b)?;
        }
        Ok(())
    }

    fn put_tree(&mut self, symbols: &[Symbol], tree: &Tree) -> Result<(), AllocError>
        ensures { OnOk result ((w : List ℕ) → Holds self.old w → Holds self.new (w ++ text_of (name_of symbols.now) (tree_of tree.now))) }
    {
        self.put_all(name(symbols, tree.symbol).as_bytes())?;
        let Some((first, rest)) = tree.children.split_first() else {
            return Ok(());
        };
        self.put(b'(')?;
        self.put_tree(symbols, first)?;
        for child in rest {
            self.put(b',')?;
            self.put_tree(symbols, child)?;
        }
        self.put(b')')
    }
}

// The first bytes of the tree's text, and whether there are more.
pub fn line_of(heap: Global, symbols: &[Symbol], tree: &Tree) -> Result<Line, AllocError>
    ensures { IfOk result (λ l. Holds l (text_of (name_of symbols.now) (tree_of tree.now))) }
{
    let mut line = Line {
        bytes: Vec::new(heap),
        cut: false,
    };
    line.put_tree(symbols, tree)?;
    Ok(line)
}
