// Rules of judgements: whether a node is a use of one.
ghost use Rattle.std.specs.Prelude.{◌≡◌, ◌↔◌, IfOk, IsTrue, option_map};
ghost use Rattle.rdx_lang.specs.Checked.{language_in};
ghost use Rattle.rdx_lang.specs.ProgramView.{contract_of, judgement_of, judgement_rule_of, program_of};
ghost use Rattle.rdx_term.specs.View.{tree_of};
ghost use Rattle.rdx_eval.specs.Asking.{asked_in, asked_out};
ghost use Rattle.rdx_eval.specs.Views.{program_in};
ghost use Rattle.rdx_deriv.specs.DerivationView.{goals_of};
ghost use Rattle.rdx_deriv.specs.Judged.{Fits, Allows};
ghost use Rattle.rdx_deriv.specs.JudgementUses.{JudgementUse};
ghost use Rattle.rdx_deriv.specs.Inside.Extending.{asked, named_rule_of, IsChosenRule, IsRuleAt, RuleUse};
ghost use Rattle.rdx_deriv.specs.Finding.{Finds};

use crate::Deriv;
use crate::extras::{behind_extras, first_match};
use crate::making::makes_list;
use crate::progress::{ChosenRule, Standing};
use rdx_bind::visible;
use rdx_eval::Engine;
use rdx_lang::{CheckedLang, CheckedPat, JRule, Judgement, Matcher, Program};
use rdx_term::{Name, NoMemory, Term};
use std::alloc::Global;

// What a contract asks of inputs.
fn in_pattern(contract: &Option<(CheckedPat, CheckedPat)>) -> Option<&CheckedPat>
    ensures { asked result ≡ asked_in (option_map contract_of contract.now) }
{
    match contract {
        Some(patterns) => Some(&patterns.0),
        None => None,
    }
}

// What a contract asks of outputs.
fn out_pattern(contract: &Option<(CheckedPat, CheckedPat)>) -> Option<&CheckedPat>
    ensures { asked result ≡ asked_out (option_map contract_of contract.now) }
{
    match contract {
        Some(patterns) => Some(&patterns.1),
        None => None,
    }
}

// Whether the term matches the pattern, where there is one.
fn fits<M: Matcher + Drop>(
    engine: &mut Engine<M>,
    program: &Program,
    language: &CheckedLang,
    pattern: Option<&CheckedPat>,
    t: &Term,
) -> Result<bool, NoMemory>
    requires { (program_in engine.old).now ≡ program.now }
    ensures fits { IfOk result (λ r. IsTrue r
        ↔ Fits (language_in language.now) (asked pattern.entry) (tree_of t.now)) }
    ensures same { program_in engine.new ≡ program_in engine.old }
{
    let Some(pat) = pattern else {
        return Ok(true);
    };
    let found = engine.matches(language, pat, t)?;
    Ok(!found.is_empty())
}

/// Whether the contract of the judgement allows these inputs and outputs.
pub fn allows<M: Matcher + Drop>(
    engine: &mut Engine<M>,
    program: &Program,
    language: &CheckedLang,
    judgement: &Judgement,
    a: &Term,
    o: &Term,
) -> Result<bool, NoMemory>
    requires { (program_in engine.old).now ≡ program.now }
    ensures allows { IfOk result (λ r. IsTrue r
        ↔ Allows (language_in language.now) (judgement_of judgement.now) (tree_of a.now)
        (tree_of o.now)) }
    ensures same { program_in engine.new ≡ program_in engine.old }
{
    if !fits(
        engine,
        program,
        language,
        in_pattern(&judgement.contract),
        a,
    )? {
        return Ok(false);
    }
    fits(
        engine,
        program,
        language,
        out_pattern(&judgement.contract),
        o,
    )
}

// The rule at the place that is chosen, where that alone is.
fn rule_at<'a>(judgement: &'a Judgement, choice: &[usize]) -> Option<&'a JRule>
    ensures { Finds (λ r. judgement_rule_of r.now)
        (IsRuleAt (judgement_of judgement.now) choice.now) result }
{
    if choice.len() != 1 {
        return None;
    }
    let rules = judgement.rules.as_slice();
    let place = choice[0];
    if place >= rules.len() {
        return None;
    }
    Some(&rules[place])
}

// The rule of the judgement that is chosen, where its contract allows these inputs and outputs.
fn chosen_rule<'a, M: Matcher + Drop>(
    engine: &mut Engine<'a, M>,
    program: &Program,
    j: &Name,
    a: &Term,
    o: &Term,
    choice: &[usize],
) -> Result<Option<ChosenRule<'a>>, NoMemory>
    requires { (program_in engine.old).now ≡ program.now }
    ensures chosen { IfOk result (λ r. Finds named_rule_of
        (IsChosenRule (program_of program.now) j.now choice.now (tree_of a.now)
        (tree_of o.now)) r) }
    ensures same { program_in engine.new ≡ program_in engine.old }
{
    let Some(judgement) = engine.judgement(j)? else {
        return Ok(None);
    };
    let Some(language) = engine.language(&judgement.language)? else {
        return Ok(None);
    };
    let Some(rule) = rule_at(judgement, choice) else {
        return Ok(None);
    };
    if !allows(engine, program, language, judgement, a, o)? {
        return Ok(None);
    }
    Ok(Some(ChosenRule {
        language: &judgement.language,
        rule,
    }))
}

// Whether what is under the node is what the rule asks for these inputs and outputs.
fn is_rule_use<'x, M: Matcher + Drop>(
    alloc: Global,
    engine: &mut Engine<M>,
    program: &Program,
    chosen: &ChosenRule<'x>,
    a: &'x Term,
    o: &Term,
    under: &[Deriv],
) -> Result<bool, NoMemory>
    requires { (program_in engine.old).now ≡ program.now }
    ensures used { IfOk result (λ r. IsTrue r
        ↔ RuleUse (program_of program.now) (named_rule_of chosen.now)
        (tree_of a.now) (tree_of o.now) (goals_of under.now)) }
    ensures same { program_in engine.new ≡ program_in engine.old }
{
    let l = chosen.language;
    let rule = chosen.rule;
    let Some(first) = first_match(under, l, &rule.ins, a) else {
        return Ok(false);
    };
    let start = Standing {
        binding: visible(alloc, first.binding)?,
        under: first.behind,
    };
    let Some(last) = behind_extras(alloc, engine, program, l, a, &rule.extras, start)? else {
        return Ok(false);
    };
    makes_list(alloc, engine, program, &rule.outs, &last, o)
}

/// Whether the judgement has these outputs for these inputs by the rule that is chosen and by what is
/// under the node.
pub(crate) fn is_judgement_use<M: Matcher + Drop>(
    alloc: Global,
    engine: &mut Engine<'_, M>,
    j: &Name,
    a: &Term,
    o: &Term,
    choice: &[usize],
    under: &[Deriv],
) -> Result<bool, NoMemory>
    ensures judged { IfOk result (λ r. IsTrue r ↔ JudgementUse
        (program_of (program_in engine.old).now) j.now (tree_of a.now) (tree_of o.now) choice.now
        (goals_of under.now)) }
    ensures same { program_in engine.new ≡ program_in engine.old }
{
    let program = engine.program();
    match chosen_rule(engine, program, j, a, o, choice)? {
        Some(chosen) => is_rule_use(alloc, engine, program, &chosen, a, o, under),
        None => Ok(false),
    }
}
