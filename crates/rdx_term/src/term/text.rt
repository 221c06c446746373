// The printed spelling of terms.
ghost use Rattle.std.specs.Prelude.{◌≡◌, ◌++◌, OnOk, OnErr, length, take};
ghost use Rattle.rdx_term.specs.Tree.{contents_tree};
ghost use Rattle.rdx_term.specs.Text.{tree_text, trees_text};
ghost use Rattle.rdx_term.specs.View.{tree_of, trees_of};

use crate::error::NoMemory;
use crate::printing::{print_bytes, print_integer, print_string};
use crate::term::{Node, Term};

/// Appends the printed spelling of a term to `out`; marks are not printed. Where memory is wanting, `out` stays as it was.
pub fn text_of(t: &Term, out: &mut Vec<u8>) -> Result<(), NoMemory>
    ensures ok { OnOk result (out.new.items ≡ out.old.items ++ tree_text (tree_of t.now)) }
    ensures err { OnErr result (out.new.items ≡ out.old.items) }
{
    let start = out.len();
    match t.print(out) {
        Ok(()) => Ok(()),
        Err(error) => {
            out.truncate(start);
            Err(error)
        }
    }
}

impl Term {
    #[cycle(print)]
    fn print(&self, out: &mut Vec<u8>) -> Result<(), NoMemory>
        ensures ok { OnOk result (out.new.items ≡ out.old.items ++ tree_text (tree_of self.now)) }
        ensures kept { take (length out.old.items) out.new.items ≡ out.old.items }
    {
        match self {
            Term::Hole => print_bytes(b"hole", out),
            Term::Int(n) => print_integer(*n, out),
            Term::Bool(true) => print_bytes(b"#t", out),
            Term::Bool(false) => print_bytes(b"#f", out),
            Term::Str(text) => print_string(text.as_str().as_bytes(), out),
            Term::Sym(name) => print_bytes(name.text().as_bytes(), out),
            Term::List(node) => node.print(out),
        }
    }
}

impl Node {
    #[cycle(print)]
    fn print(&self, out: &mut Vec<u8>) -> Result<(), NoMemory>
        ensures ok { OnOk result (out.new.items ≡ out.old.items
            ++ tree_text (contents_tree self.now)) }
        ensures kept { take (length out.old.items) out.new.items ≡ out.old.items }
    {
        out.push(b'(')?;
        print_items(&self.items, out)?;
        out.push(b')')?;
        Ok(())
    }
}

// The items, with one space between two.
#[cycle(print)]
fn print_items(items: &[Term], out: &mut Vec<u8>) -> Result<(), NoMemory>
    ensures ok { OnOk result (out.new.items ≡ out.old.items ++ trees_text (trees_of items.now)) }
    ensures kept { take (length out.old.items) out.new.items ≡ out.old.items }
{
    let Some(first) = items.first() else {
        return Ok(());
    };
    first.print(out)?;
    for i in 1..items.len() {
        out.push(b' ')?;
        items[i].print(out)?;
    }
    Ok(())
}
