// Whether a derivation holds, with a list of what is still to be looked at in place of a recursion,
// since a derivation may be nested as deep as one likes.
ghost use Rattle.std.specs.Prelude.{◌≡◌, ◌↔◌, ◌++◌, IfOk, IsTrue, OnOk, map};
ghost use Rattle.rdx_term.specs.View.{tree_of};
ghost use Rattle.rdx_lang.specs.PatternView.{pattern_of};
ghost use Rattle.rdx_lang.specs.ProgramView.{program_of};
ghost use Rattle.rdx_lang.specs.Shown.{binding_of};
ghost use Rattle.rdx_eval.specs.Views.{program_in};
ghost use Rattle.rdx_deriv.specs.Derivations.{matched, split};
ghost use Rattle.rdx_deriv.specs.DerivationView.{derivation_of, goal_of, goals_of};
ghost use Rattle.rdx_deriv.specs.Holds.{Holds, IsNode};
ghost use Rattle.rdx_deriv.specs.Inside.Decides.{Decides};
ghost use Rattle.rdx_deriv.specs.Inside.Named.{IsNodeOf};
ghost use Rattle.rdx_deriv.specs.Inside.Worklists.{listed};

use crate::judgement::is_judgement_use;
use crate::known::has_known_nonterminals;
use crate::rules::is_match_use;
use crate::splitting::is_split_use;
use crate::{Deriv, Goal};
use rdx_eval::Engine;
use rdx_lang::{Binding, Matcher, Pat};
use rdx_term::{Name, NoMemory, Term};
use std::alloc::Global;

// Whether a goal follows by its rule from those of the derivations under it, where it says that the
// pattern matches the term. Where it says so, it is so; it need not be seen where one of these does
// not bind the names of its pattern.
fn match_follows<'d, M: Matcher + Drop>(
    alloc: Global,
    engine: &mut Engine<'_, M>,
    goal: &Goal,
    name: &Name,
    pat: &Pat,
    t: &'d Term,
    b: &Binding,
    choice: &[usize],
    under: &'d [Deriv],
) -> Result<bool, NoMemory>
    requires { goal_of goal.now
        ≡ matched name.now (pattern_of pat.now) (tree_of t.now) (binding_of b.now) }
    ensures node { IfOk result (λ r. Decides r (goals_of under.now)
        (IsNode (program_of (program_in engine.old).now) (goal_of goal.now) choice.now
        (goals_of under.now))) }
    ensures same { program_in engine.new ≡ program_in engine.old }
{
    match engine.language(name)? {
        Some(language) => {
            if has_known_nonterminals(language.language(), pat) {
                is_match_use(alloc, language, name, pat, t, b, choice, under)
            } else {
                Ok(false)
            }
        }
        None => Ok(false),
    }
}

// The same, where it says that the pattern splits the term so.
fn split_follows<'d, M: Matcher + Drop>(
    alloc: Global,
    engine: &mut Engine<'_, M>,
    goal: &Goal,
    name: &Name,
    pat: &Pat,
    t: &'d Term,
    context: &'d Term,
    part: &'d Term,
    b: &Binding,
    choice: &[usize],
    under: &'d [Deriv],
) -> Result<bool, NoMemory>
    requires { goal_of goal.now ≡ split name.now (pattern_of pat.now) (tree_of t.now)
        (tree_of context.now) (tree_of part.now) (binding_of b.now) }
    ensures node { IfOk result (λ r. Decides r (goals_of under.now)
        (IsNode (program_of (program_in engine.old).now) (goal_of goal.now) choice.now
        (goals_of under.now))) }
    ensures same { program_in engine.new ≡ program_in engine.old }
{
    match engine.language(name)? {
        Some(language) => {
            if has_known_nonterminals(language.language(), pat) {
                is_split_use(
                    alloc, language, name, pat, t, context, part, b, choice, under,
                )
            } else {
                Ok(false)
            }
        }
        None => Ok(false),
    }
}

// The same of any goal.
fn follows<'d, M: Matcher + Drop>(
    alloc: Global,
    engine: &mut Engine<'_, M>,
    goal: &'d Goal,
    choice: &[usize],
    under: &'d [Deriv],
) -> Result<bool, NoMemory>
    ensures node { IfOk result (λ r. Decides r (goals_of under.now)
        (IsNode (program_of (program_in engine.old).now) (goal_of goal.now) choice.now
        (goals_of under.now))) }
    ensures same { program_in engine.new ≡ program_in engine.old }
{
    match goal {
        Goal::Match(name, pat, t, b) => {
            match_follows(alloc, engine, goal, name, pat, t, b, choice, under)
        }
        Goal::Split(name, pat, t, context, part, b) => {
            split_follows(
                alloc, engine, goal, name, pat, t, context, part, b, choice, under,
            )
        }
        Goal::Judge(name, inputs, outputs) => {
            is_judgement_use(alloc, engine, name, inputs, outputs, choice, under)
        }
    }
}

// The same of a node of a derivation.
fn is_node<M: Matcher + Drop>(
    alloc: Global,
    engine: &mut Engine<'_, M>,
    d: &Deriv,
) -> Result<bool, NoMemory>
    ensures node { IfOk result (λ r. IsNodeOf r (program_of (program_in engine.old).now)
        (derivation_of d.now)) }
    ensures same { program_in engine.new ≡ program_in engine.old }
{
    follows(alloc, engine, d.goal(), d.choice(), d.under())
}

// Puts the derivations on the list.
fn put_all<'a>(under: &'a [Deriv], left: &mut Vec<&'a Deriv>) -> Result<(), NoMemory>
    ensures { OnOk result (listed left.new.items
        ≡ listed left.old.items ++ map derivation_of under.now) }
{
    for d in under {
        left.push(d)?;
    }
    Ok(())
}

/// Whether the derivation holds, in the program of the engine: each goal of a match or of a split
/// speaks of a language of the program, with a pattern each of whose nonterminals that language has,
/// and each node is a use of its rule.
pub fn derivation_holds<M: Matcher + Drop>(
    alloc: Global,
    engine: &mut Engine<'_, M>,
    d: &Deriv,
) -> Result<bool, NoMemory>
    ensures holds { IfOk result (λ r. IsTrue r
        ↔ Holds (program_of (program_in engine.old).now) (derivation_of d.now)) }
    ensures same { program_in engine.new ≡ program_in engine.old }
{
    let mut left: Vec<&Deriv> = Vec::new(alloc);
    left.push(d)?;
    while let Some(next) = left.pop() {
        if !is_node(alloc, engine, next)? {
            return Ok(false);
        }
        put_all(next.under(), &mut left)?;
    }
    Ok(true)
}
