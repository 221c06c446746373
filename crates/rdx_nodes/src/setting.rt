// What a search works on: the language, the nodes of its patterns and of the query's, and the terms.
ghost use Rattle.std.specs.Prelude.{◌≡◌, ◌<◌, ◌+◌, IfOk, OnOk, length};
ghost use Rattle.rdx_lang.specs.Checked.{language_in};
ghost use Rattle.rdx_lang.specs.PatternView.{pattern_of, patterns_of};
ghost use Rattle.rdx_nodes.specs.Doors.{doors_left};
ghost use Rattle.rdx_nodes.specs.Nodes.{pattern_at};
ghost use Rattle.rdx_nodes.specs.Settings.{
  language_at,
  patterns_at_hand,
  trees_at_hand,
  DoesAsWell,
  Grows,
  IsClosedDoor,
  IsReady,
};
ghost use Rattle.rdx_nodes.specs.Inside.Numbering.{alternatives_by, opened_by};

use crate::index::Index;
use crate::node::{Form, Node};
use crate::once::Once;
use rdx_lang::{CheckedLang, Pat};
use rdx_store::Store;
use rdx_term::NoMemory;
use std::alloc::Global;

/// What a search works on.
#[derive(Drop)]
pub struct Setting<'a> {
    /// Where memory comes from.
    pub alloc: Global,
    /// The language, which has the nonterminals.
    pub language: &'a CheckedLang,
    /// The places of the language's nonterminals in the order of their names: a hint.
    pub(crate) places: &'a [usize],
    /// The nodes, each behind those of its parts.
    pub nodes: Vec<Node<'a>>,
    /// The numbers of those of nonterminals.
    pub(crate) index: Index<'a>,
    /// The terms.
    pub store: &'a Store,
}

// The alternatives of a nonterminal; none of another form.
fn alternatives_in<'a>(form: &Form<'a>) -> &'a [Pat]
    ensures { patterns_of result.now ≡ alternatives_by form.now }
{
    match form {
        Form::Nt(it) => it.alternatives,
        Form::Wild
        | Form::Kind(_)
        | Form::Except(_)
        | Form::Prefix(_)
        | Form::Hole
        | Form::Lit(_)
        | Form::Named(_, _)
        | Form::InHole(_, _)
        | Form::HideHole(_)
        | Form::Closed(_)
        | Form::Seq(_) => &[],
    }
}

// Gives a nonterminal the numbers of the nodes that stand for its alternatives.
fn give_numbers(form: &mut Form<'_>, numbers: Vec<usize>)
    ensures { form.new ≡ opened_by numbers form.old }
{
    if let Form::Nt(it) = form {
        it.opened = Some(numbers);
    }
}

impl<'a> Setting<'a> {
    /// No nodes yet. The places are those of the language's nonterminals, for all that is known.
    pub fn new(
        alloc: Global,
        language: &'a CheckedLang,
        places: &'a [usize],
        store: &'a Store,
    ) -> Setting<'a>
        ensures ready { IsReady result }
        ensures language { language_at result ≡ language_in language.now }
        ensures terms { trees_at_hand result ≡ store.now }
    {
        Setting {
            alloc,
            language,
            places,
            nodes: Vec::new(alloc),
            index: Index::new(alloc),
            store,
        }
    }

    /// Adds the nodes of a pattern, and gives the number of its own.
    pub fn add(&mut self, pat: &'a Pat) -> Result<usize, NoMemory>
        requires ready { IsReady self.old }
        ensures ready { OnOk result (IsReady self.new) }
        ensures grows { OnOk result (Grows self.old self.new) }
        ensures number { IfOk result (λ n. n < length (patterns_at_hand self.new)) }
        ensures pattern { IfOk result (λ n. DoesAsWell (language_at self.new)
            (pattern_at (patterns_at_hand self.new) n) (pattern_of pat.now)) }
    {
        let once = Once::none(self.alloc);
        self.number(pat, &once, false)
    }

    /// Makes the nodes for the alternatives of the nonterminal with this node.
    pub fn open(&mut self, number: usize) -> Result<(), NoMemory>
        requires ready { IsReady self.old }
        requires door { IsClosedDoor self.old number }
        ensures ready { OnOk result (IsReady self.new) }
        ensures grows { OnOk result (Grows self.old self.new) }
        ensures fewer { OnOk result (doors_left self.new < doors_left self.old) }
    {
        let alternatives = alternatives_in(&self.nodes[number].form);
        let numbers = self.number_all(alternatives)?;
        give_numbers(&mut self.nodes[number].form, numbers);
        Ok(())
    }
}
