// The engine's calls.
ghost use Rattle.std.specs.Prelude.{◌≡◌};
ghost use Rattle.std.specs.Option.{ForSome};
ghost use Rattle.rdx_lang.specs.ProgramView.{program_of};
ghost use Rattle.rdx_eval.specs.Model.Keeping.{KeepsOnly, KeepsOnly-prop};
ghost use Rattle.rdx_eval.specs.Model.Names.{AreNamesOf};

use crate::extending::listed_bindings;
use crate::frames::Next;
use crate::kept::Memo;
use crate::lookup::Names;
use crate::memo::empty;
use crate::scope::{Scope, Setting};
use crate::{EvalFault, evaluation};
use rdx_delta::HostTable;
use rdx_lang::{
    Binding, CheckedLang, CheckedPat, Extra, HostExpr, Judgement, Matcher, Premise, Program,
    Relation, Split, Template,
};
use rdx_term::{Name, NoMemory, Term};
use std::alloc::Global;

/// How high calls may stand on calls.
const HEIGHT: usize = 400;

/// A program, with the table of host operations and a matcher.
#[derive(Drop)]
pub struct Engine<'a, M: Drop> {
    alloc: Global,
    program: &'a Program,
    host: &'a HostTable,
    names: Option<Names<'a>>,
    matcher: M,
    memo: Memo,
    ghost of_program: { ForSome names (AreNamesOf (program_of program.now)) },
    ghost kept: { KeepsOnly (program_of program.now) memo } by { KeepsOnly-prop _ _ },
}

impl<'a, M: Matcher + Drop> Engine<'a, M> {
    ghost use Rattle.std.specs.Prelude.{IfOk, IsSome, OnOk, option_map};
    ghost use Rattle.rdx_term.specs.View.{tree_of};
    ghost use Rattle.rdx_lang.specs.Checked.{language_in, pattern_in};
    ghost use Rattle.rdx_lang.specs.Listing.{Matches, Splits};
    ghost use Rattle.rdx_lang.specs.ProgramView.{program_of, extras_of, judgement_of, premise_of, relation_of};
    ghost use Rattle.rdx_lang.specs.Programs.{judgement_named, language_named, relation_named};
    ghost use Rattle.rdx_lang.specs.Shown.{binding_of, bindings_of, decompositions_of};
    ghost use Rattle.rdx_lang.specs.TemplateView.{template_of, host_of};
    ghost use Rattle.rdx_eval.specs.Heights.{calls_at, height};
    ghost use Rattle.rdx_eval.specs.Extending.{ExtendOver, MeetsOver};
    ghost use Rattle.rdx_eval.specs.Instantiation.{Makes, HostMakes};
    ghost use Rattle.rdx_eval.specs.Languages.{language_found};
    ghost use Rattle.rdx_eval.specs.Judgements.{Holds};
    ghost use Rattle.rdx_eval.specs.Views.{Says, bindings_in, terms_in};

    /// An engine for this program, with this table of host operations and this matcher.
    pub fn new(
        alloc: Global,
        program: &'a Program,
        host: &'a HostTable,
        matcher: M,
    ) -> Engine<'a, M>
        ensures { result.program ≡ program.entry }
    {
        Engine {
            alloc,
            program,
            host,
            names: None,
            matcher,
            memo: empty(alloc),
        }
    }

    // Puts the names of the program in order, where that was not done.
    fn order_names(&mut self) -> Result<(), NoMemory>
        ensures there { OnOk result (IsSome self.new.names) }
        ensures same { self.new.program ≡ self.old.program }
    {
        if self.names.is_none() {
            self.names = Some(Names::new(self.alloc, self.program)?);
        }
        Ok(())
    }

    /// The program.
    pub fn program(&self) -> &'a Program
        ensures { result.now ≡ self.now.program.now }
    {
        self.program
    }

    /// The language of this name, where the program has one.
    pub fn language(&mut self, name: &Name) -> Result<Option<&'a CheckedLang>, NoMemory>
        ensures found { IfOk result (λ found. language_found found
            ≡ language_named (program_of self.old.program.now) name.now) }
        ensures same { self.new.program ≡ self.old.program }
    {
        self.order_names()?;
        let Some(names) = &self.names else {
            unreachable!()
        };
        Ok(names.language_named(self.program, name))
    }

    /// The relation of this name, where the program has one.
    pub fn relation(&mut self, name: &Name) -> Result<Option<&'a Relation>, NoMemory>
        ensures found { IfOk result (λ found. option_map (λ r. relation_of r.now) found
            ≡ relation_named (program_of self.old.program.now) name.now) }
        ensures same { self.new.program ≡ self.old.program }
    {
        self.order_names()?;
        let Some(names) = &self.names else {
            unreachable!()
        };
        Ok(names.relation_named(self.program, name))
    }

    /// The judgement of this name, where the program has one.
    pub fn judgement(&mut self, name: &Name) -> Result<Option<&'a Judgement>, NoMemory>
        ensures found { IfOk result (λ found. option_map (λ j. judgement_of j.now) found
            ≡ judgement_named (program_of self.old.program.now) name.now) }
        ensures same { self.new.program ≡ self.old.program }
    {
        self.order_names()?;
        let Some(names) = &self.names else {
            unreachable!()
        };
        Ok(names.judgement_named(self.program, name))
    }

    /// The bindings by which the pattern matches the term, as its matcher lists them.
    pub fn matches(
        &mut self,
        language: &CheckedLang,
        pat: &CheckedPat,
        t: &Term,
    ) -> Result<Vec<Binding>, NoMemory>
        ensures listing { IfOk result (λ found. Matches (language_in language.now)
            (pattern_in pat.now) (tree_of t.now) (bindings_of found.items)) }
        ensures same { self.new.program ≡ self.old.program }
    {
        self.matcher.matches(language, pat, t)
    }

    /// What the pattern splits the term into, as its matcher lists it.
    pub fn splits(
        &mut self,
        language: &CheckedLang,
        pat: &CheckedPat,
        t: &Term,
    ) -> Result<Vec<Split>, NoMemory>
        ensures listing { IfOk result (λ found. Splits (language_in language.now)
            (pattern_in pat.now) (tree_of t.now) (decompositions_of found.items)) }
        ensures same { self.new.program ≡ self.old.program }
    {
        self.matcher.splits(language, pat, t)
    }

    /// What the template makes of the binding, or the first fault.
    pub fn instantiate(&mut self, t: &Template, b: &Binding) -> Result<Term, EvalFault>
        ensures answer { Says tree_of (Makes (calls_at (program_of self.old.program.now) height)
            (binding_of b.now) (template_of t.now)) result }
        ensures same { self.new.program ≡ self.old.program }
    {
        self.order_names()?;
        let Some(names) = &self.names else {
            unreachable!()
        };
        let setting = Setting::new(self.alloc, self.program, names, self.host);
        let scope = Scope {
            setting: &setting,
            height: HEIGHT,
            b,
        };
        let answer = evaluation::make(&scope, &mut self.matcher, &mut self.memo, Next::Make(t));
        Ok(answer?)
    }

    /// What the host expression makes of the binding, or the first fault.
    pub fn host(&mut self, h: &HostExpr, b: &Binding) -> Result<Term, EvalFault>
        ensures answer { Says tree_of (HostMakes (calls_at (program_of self.old.program.now) height)
            (binding_of b.now) (host_of h.now)) result }
        ensures same { self.new.program ≡ self.old.program }
    {
        self.order_names()?;
        let Some(names) = &self.names else {
            unreachable!()
        };
        let setting = Setting::new(self.alloc, self.program, names, self.host);
        let scope = Scope {
            setting: &setting,
            height: HEIGHT,
            b,
        };
        let answer = evaluation::make(&scope, &mut self.matcher, &mut self.memo, Next::Host(h));
        Ok(answer?)
    }

    /// The value of the metafunction of this name for the list of arguments, or the first fault. A
    /// name that the program has no metafunction of is undefined for all arguments.
    pub fn call(&mut self, f: &Name, args: &Term) -> Result<Term, EvalFault>
        ensures answer { Says tree_of ((calls_at (program_of self.old.program.now) height).value_of
            f.now (tree_of args.now)) result }
        ensures same { self.new.program ≡ self.old.program }
    {
        self.order_names()?;
        let Some(names) = &self.names else {
            unreachable!()
        };
        let setting = Setting::new(self.alloc, self.program, names, self.host);
        let answer = evaluation::calls::call(
            &setting,
            &mut self.matcher,
            &mut self.memo,
            HEIGHT,
            f,
            args,
        );
        Ok(answer?)
    }

    /// The lists of outputs of the judgement of this name for the list of inputs, ascending and
    /// each once, or the first fault. A name that the program has no judgement of has no outputs.
    pub fn judge(&mut self, j: &Name, ins: &Term) -> Result<Vec<Term>, EvalFault>
        ensures answer { Says terms_in
            ((calls_at (program_of self.old.program.now) height).outputs_of j.now (tree_of ins.now))
            result }
        ensures same { self.new.program ≡ self.old.program }
    {
        self.order_names()?;
        let Some(names) = &self.names else {
            unreachable!()
        };
        let setting = Setting::new(self.alloc, self.program, names, self.host);
        let answer = evaluation::calls::judge(
            &setting,
            &mut self.matcher,
            &mut self.memo,
            HEIGHT,
            j,
            ins,
        );
        Ok(answer?)
    }

    /// Whether the judgement of this name has outputs for the list of inputs, or the first fault.
    pub fn holds(&mut self, j: &Name, ins: &Term) -> Result<bool, EvalFault>
        ensures answer { Says (λ b. b) (Holds (calls_at (program_of self.old.program.now) height)
            j.now (tree_of ins.now)) result }
        ensures same { self.new.program ≡ self.old.program }
    {
        let found = self.judge(j, ins)?;
        Ok(!found.is_empty())
    }

    /// Which bindings meet the premise by itself, before which no name is bound, in a language of
    /// the program, ascending and each once; or the first fault.
    pub fn meet(&mut self, language: &Name, premise: &Premise) -> Result<Vec<Binding>, EvalFault>
        requires { IsSome (language_named (program_of self.old.program.now) language.now) }
        ensures answer { Says bindings_in (MeetsOver
            (language_named (program_of self.old.program.now) language.now)
            (calls_at (program_of self.old.program.now) height) (premise_of premise.now)) result }
        ensures same { self.new.program ≡ self.old.program }
    {
        self.order_names()?;
        let Some(names) = &self.names else {
            unreachable!()
        };
        let setting = Setting::new(self.alloc, self.program, names, self.host);
        let Some(language) = names.language_named(self.program, language) else {
            unreachable!()
        };
        let none = Binding::new(Vec::new(self.alloc));
        let found = evaluation::extras::by_premise(
            &setting,
            &mut self.matcher,
            &mut self.memo,
            HEIGHT,
            language,
            premise,
            none,
        );
        Ok(listed_bindings(self.alloc, found?)?)
    }

    /// Which bindings the extras make of these, one extra after the other, in a language of the
    /// program; or the first fault. Names that are bound anew avoid the symbols of the whole term.
    pub fn extend(
        &mut self,
        language: &Name,
        found: Vec<Binding>,
        extras: &[Extra],
        whole: &Term,
    ) -> Result<Vec<Binding>, EvalFault>
        requires { IsSome (language_named (program_of self.old.program.now) language.now) }
        ensures answer { Says bindings_in (ExtendOver
            (language_named (program_of self.old.program.now) language.now)
            (calls_at (program_of self.old.program.now) height) (tree_of whole.now)
            (extras_of extras.now) (bindings_in found)) result }
        ensures same { self.new.program ≡ self.old.program }
    {
        self.order_names()?;
        let Some(names) = &self.names else {
            unreachable!()
        };
        let setting = Setting::new(self.alloc, self.program, names, self.host);
        let Some(language) = names.language_named(self.program, language) else {
            unreachable!()
        };
        let answer = evaluation::extras::extend(
            &setting,
            &mut self.matcher,
            &mut self.memo,
            HEIGHT,
            language,
            extras,
            found,
            whole,
        );
        Ok(answer?)
    }
}
