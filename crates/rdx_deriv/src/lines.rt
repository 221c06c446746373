// Derivations as they are printed.
ghost use Rattle.std.specs.Prelude.{◌≡◌, ◌++◌, ◌∷◌, [], OnOk, codes, option_map};
ghost use Rattle.std.specs.Rc.{rc_str_bytes};
ghost use Rattle.rdx_term.specs.Text.{label_text, spaced_text, tree_text};
ghost use Rattle.rdx_term.specs.View.{tree_of, trees_of};
ghost use Rattle.rdx_lang.specs.PatternView.{pattern_of};
ghost use Rattle.rdx_lang.specs.Programs as programs;
ghost use Rattle.rdx_lang.specs.ProgramView.{judgement_of, program_of};
ghost use Rattle.rdx_deriv.specs.Derivations.{chosen, judged, root};
ghost use Rattle.rdx_deriv.specs.DerivationView.{derivation_of, goal_of};
ghost use Rattle.rdx_deriv.specs.Lines as lines;

use crate::{Deriv, Goal};
use rdx_lang::{Judgement, Kind, Pat, Program, Ref};
use rdx_term::printing::{print_bytes, print_integer, print_string};
use rdx_term::spelling::is_symbol;
use rdx_term::{Name, NoMemory, Term, text_of};
use std::alloc::Global;
use std::rc::RcStr;

// The name of a built-in pattern.
fn write_kind(kind: Kind, out: &mut Vec<u8>) -> Result<(), NoMemory>
    ensures { OnOk result (out.new.items ≡ out.old.items ++ lines.kind_word kind) }
{
    match kind {
        Kind::Any => print_bytes(b"any", out),
        Kind::Number => print_bytes(b"number", out),
        Kind::Natural => print_bytes(b"natural", out),
        Kind::Integer => print_bytes(b"integer", out),
        Kind::Real => print_bytes(b"real", out),
        Kind::Text => print_bytes(b"string", out),
        Kind::Boolean => print_bytes(b"boolean", out),
        Kind::Variable => print_bytes(b"variable", out),
        Kind::Unmentioned => print_bytes(b"variable-not-otherwise-mentioned", out),
    }
}

// A nonterminal, or the contexts from one to another.
fn write_ref(name: &Ref, out: &mut Vec<u8>) -> Result<(), NoMemory>
    ensures { OnOk result (out.new.items ≡ out.old.items ++ lines.ref_word name.now) }
{
    match name {
        Ref::Nt(x) => print_bytes(x.text().as_bytes(), out),
        Ref::Cross(x, y) => {
            print_bytes(x.text().as_bytes(), out)?;
            print_bytes(b"->", out)?;
            print_bytes(y.text().as_bytes(), out)
        }
    }
}

// A number that is one more than this, in decimal.
fn write_next(k: usize, out: &mut Vec<u8>) -> Result<(), NoMemory>
    ensures { OnOk result (out.new.items ≡ out.old.items ++ lines.place_word (k ∷ [])) }
{
    print_integer(k as i128 + 1, out)
}

// The number of the alternative that is chosen.
fn write_place(choice: &[usize], out: &mut Vec<u8>) -> Result<(), NoMemory>
    ensures { OnOk result (out.new.items ≡ out.old.items ++ lines.place_word choice.now) }
{
    match choice.first() {
        Some(k) => write_next(*k, out),
        None => Ok(()),
    }
}

// The word of an alternative of a nonterminal.
fn write_alternative(name: &Ref, choice: &[usize], out: &mut Vec<u8>) -> Result<(), NoMemory>
    ensures { OnOk result (out.new.items ≡ out.old.items
        ++ (lines.ref_word name.now ++ codes "/" ++ lines.place_word choice.now)) }
{
    write_ref(name, out)?;
    print_bytes(b"/", out)?;
    write_place(choice, out)
}

// A word, and a name behind it.
fn write_named(word: &[u8], name: &Name, out: &mut Vec<u8>) -> Result<(), NoMemory>
    ensures { OnOk result (out.new.items ≡ out.old.items ++ (word.now ++ name.now)) }
{
    print_bytes(word, out)?;
    print_bytes(name.text().as_bytes(), out)
}

// The word of a rule.
fn write_word(pat: &Pat, choice: &[usize], out: &mut Vec<u8>) -> Result<(), NoMemory>
    ensures { OnOk result (out.new.items
        ≡ out.old.items ++ lines.rule_word (pattern_of pat.now) choice.now) }
{
    match pat {
        Pat::Wild => print_bytes(b"_", out),
        Pat::Kind(kind) => write_kind(*kind, out),
        Pat::Except(_) => print_bytes(b"variable-except", out),
        Pat::Prefix(_) => print_bytes(b"variable-prefix", out),
        Pat::Hole => print_bytes(b"hole", out),
        Pat::Lit(_) => print_bytes(b"literal", out),
        Pat::Nt(name) => write_alternative(name, choice, out),
        Pat::Named(name, _) => write_named(b"name ", name, out),
        Pat::Differ(name, _) => write_named(b"mismatch ", name, out),
        Pat::InHole(_, _) => print_bytes(b"in-hole", out),
        Pat::HideHole(_) => print_bytes(b"hide-hole", out),
        Pat::Closed(_) => print_bytes(b"closed", out),
        Pat::Seq(_) => print_bytes(b"list", out),
    }
}

// The name of a rule, as a string where it is not spelled like a symbol.
fn write_label(name: &RcStr, out: &mut Vec<u8>) -> Result<(), NoMemory>
    ensures { OnOk result (out.new.items ≡ out.old.items ++ label_text (rc_str_bytes name.now)) }
{
    let text = name.as_str();
    if is_symbol(text) {
        print_bytes(text.as_bytes(), out)
    } else {
        print_string(text.as_bytes(), out)
    }
}

/// The name of a rule, or `-` where it has none.
pub fn write_rule_name(name: Option<&RcStr>, out: &mut Vec<u8>) -> Result<(), NoMemory>
    ensures { OnOk result (out.new.items ≡ out.old.items
        ++ lines.rule_name_text (option_map (λ n. rc_str_bytes n.now) name.entry)) }
{
    match name {
        Some(name) => write_label(name, out),
        None => print_bytes(b"-", out),
    }
}

// The judgement of this name, where the program has one.
fn judgement_named<'a>(program: &'a Program, name: &Name) -> Option<&'a Judgement>
    ensures { option_map (λ j. judgement_of j.now) result
        ≡ programs.judgement_named (program_of program.now) name.now }
{
    for judgement in &program.judgements {
        if judgement.name.text() == name.text() {
            return Some(judgement);
        }
    }
    None
}

// The mode of a judgement, where there is one.
fn mode_in<'a>(judgement: Option<&'a Judgement>) -> &'a [bool]
    ensures { result.now ≡ lines.mode_in (option_map (λ j. judgement_of j.now) judgement.entry) }
{
    match judgement {
        Some(judgement) => &judgement.inputs,
        None => &[],
    }
}

// The name of the rule of the judgement that is chosen.
fn chosen_name<'a>(judgement: Option<&'a Judgement>, choice: &[usize]) -> Option<&'a RcStr>
    ensures { option_map (λ n. rc_str_bytes n.now) result
        ≡ lines.chosen_name (option_map (λ j. judgement_of j.now) judgement.entry) choice.now }
{
    let rules = &judgement?.rules;
    let place = choice.first()?;
    rules.get(*place)?.name.as_ref()
}

// The items of a list; other terms have none.
fn items_in(t: &Term) -> &[Term]
    ensures { trees_of result.now ≡ lines.items_in (tree_of t.now) }
{
    match t {
        Term::List(node) => node.items(),
        Term::Hole | Term::Int(_) | Term::Bool(_) | Term::Str(_) | Term::Sym(_) => &[],
    }
}

// A term with a space before it.
fn write_spaced(t: &Term, out: &mut Vec<u8>) -> Result<(), NoMemory>
    ensures { OnOk result (out.new.items ≡ out.old.items ++ (codes " " ++ tree_text (tree_of t.now))) }
{
    print_bytes(b" ", out)?;
    text_of(t, out)
}

// The arguments of a judgement of this mode, each with a space before it.
fn write_arguments(
    mode: &[bool],
    inputs: &[Term],
    outputs: &[Term],
    out: &mut Vec<u8>,
) -> Result<(), NoMemory>
    ensures { OnOk result (out.new.items ≡ out.old.items ++ spaced_text
        (lines.arguments mode.now (trees_of inputs.now) (trees_of outputs.now))) }
{
    let mut ins = inputs;
    let mut outs = outputs;
    for is_input in mode {
        if *is_input {
            if let Some((first, others)) = ins.split_first() {
                write_spaced(first, out)?;
                ins = others;
            }
        } else if let Some((first, others)) = outs.split_first() {
            write_spaced(first, out)?;
            outs = others;
        }
    }
    Ok(())
}

// A judgement with its arguments, as a list.
fn write_judgement(
    mode: &[bool],
    name: &Name,
    inputs: &Term,
    outputs: &Term,
    out: &mut Vec<u8>,
) -> Result<(), NoMemory>
    ensures { OnOk result (out.new.items ≡ out.old.items ++ lines.judgement_text mode.now name.now
        (tree_of inputs.now) (tree_of outputs.now)) }
{
    print_bytes(b"(", out)?;
    print_bytes(name.text().as_bytes(), out)?;
    write_arguments(mode, items_in(inputs), items_in(outputs), out)?;
    print_bytes(b")", out)
}

// What a line says of a match.
fn write_match(pat: &Pat, t: &Term, choice: &[usize], out: &mut Vec<u8>) -> Result<(), NoMemory>
    ensures { OnOk result (out.new.items ≡ out.old.items
        ++ (lines.rule_word (pattern_of pat.now) choice.now ++ codes " " ++ tree_text (tree_of t.now))) }
{
    write_word(pat, choice, out)?;
    print_bytes(b" ", out)?;
    text_of(t, out)
}

// What it says of a judgement.
fn write_judged(
    program: &Program,
    name: &Name,
    inputs: &Term,
    outputs: &Term,
    choice: &[usize],
    out: &mut Vec<u8>,
) -> Result<(), NoMemory>
    ensures { OnOk result (out.new.items ≡ out.old.items ++ lines.goal_text (program_of program.now)
        (judged name.now (tree_of inputs.now) (tree_of outputs.now)) choice.now) }
{
    let judgement = judgement_named(program, name);
    print_bytes(b"judge ", out)?;
    write_judgement(mode_in(judgement), name, inputs, outputs, out)?;
    print_bytes(b" by ", out)?;
    write_rule_name(chosen_name(judgement, choice), out)
}

// What a line says.
fn write_goal(
    program: &Program,
    goal: &Goal,
    choice: &[usize],
    out: &mut Vec<u8>,
) -> Result<(), NoMemory>
    ensures { OnOk result (out.new.items ≡ out.old.items
        ++ lines.goal_text (program_of program.now) (goal_of goal.now) choice.now) }
{
    match goal {
        Goal::Match(_, pat, t, _) => write_match(pat, t, choice, out),
        Goal::Split(_, pat, _, context, part, _) => {
            write_match(pat, context, choice, out)?;
            print_bytes(b" / ", out)?;
            text_of(part, out)
        }
        Goal::Judge(name, inputs, outputs) => {
            write_judged(program, name, inputs, outputs, choice, out)
        }
    }
}

// Two spaces for each level.
fn write_indent(level: usize, out: &mut Vec<u8>) -> Result<(), NoMemory>
    ensures { OnOk result (out.new.items ≡ out.old.items ++ lines.indent level) }
{
    for _ in 0..level {
        print_bytes(b"  ", out)?;
    }
    Ok(())
}

// The line of a node at this level.
fn write_line(
    program: &Program,
    level: usize,
    goal: &Goal,
    choice: &[usize],
    out: &mut Vec<u8>,
) -> Result<(), NoMemory>
    ensures { OnOk result (out.new.items
        ≡ out.old.items ++ lines.node_line (program_of program.now) level (goal_of goal.now) choice.now) }
{
    print_bytes(b"    ", out)?;
    write_indent(level, out)?;
    write_goal(program, goal, choice, out)?;
    print_bytes(b"\n", out)
}

// The line of the node of a derivation, at this level.
fn write_node(program: &Program, level: usize, d: &Deriv, out: &mut Vec<u8>) -> Result<(), NoMemory>
    ensures { OnOk result (out.new.items ≡ out.old.items ++ lines.node_line (program_of program.now)
        level (root (derivation_of d.now)) (chosen (derivation_of d.now))) }
{
    write_line(program, level, d.goal(), d.choice(), out)
}

/// Appends the lines of a derivation: one for each node, followed by those of what stands under it.
pub fn write_lines(
    alloc: Global,
    program: &Program,
    d: &Deriv,
    out: &mut Vec<u8>,
) -> Result<(), NoMemory>
    ensures { OnOk result (out.new.items ≡ out.old.items
        ++ lines.derivation_lines (program_of program.now) 0 (derivation_of d.now)) }
{
    write_node(program, 0, d, out)?;
    let mut stack: Vec<&[Deriv]> = Vec::new(alloc);
    stack.push(d.under())?;
    while let Some(rest) = stack.pop() {
        let level = stack.len() + 1;
        if let Some((first, others)) = rest.split_first() {
            stack.push(others)?;
            write_node(program, level, first, out)?;
            stack.push(first.under())?;
        }
    }
    Ok(())
}
