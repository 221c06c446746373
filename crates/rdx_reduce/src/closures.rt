// Closures of relations: steps in contexts.
ghost use Rattle.std.specs.List.{list_all, list_any};
ghost use Rattle.std.specs.Prelude.{◌≡◌, IfOk, IsTrue, IsFalse, bytes_eq, codes, map};
ghost use Rattle.rdx_lang.specs.Checked.{language_in, pattern_in};
ghost use Rattle.rdx_lang.specs.Closures as model;
ghost use Rattle.rdx_lang.specs.Patterns.{in_hole, named, closed};
ghost use Rattle.rdx_lang.specs.PatternView.{pattern_of};
ghost use Rattle.rdx_lang.specs.ProgramView.{relation_of, rule_of};
ghost use Rattle.rdx_lang.specs.References.{is_among};
ghost use Rattle.rdx_lang.specs.Templates.{fill, var};
ghost use Rattle.rdx_lang.specs.TemplateView.{template_of};
ghost use Rattle.rdx_lang.specs.WellFormed.{defined, is_well_formed_in};
ghost use Rattle.rdx_lang.specs.declared.pattern.Ref.TheVariants.{Cross};

use rdx_lang::{CheckedLang, CheckedPat, Pat, Ref, Relation, Rule, Template, first_variant};
use rdx_term::{Name, NoMemory};
use std::alloc::Global;
use std::rc::RcStr;

/// How many closures may stand in one another: patterns are copied, checked and dropped by
/// recursion along them.
const DEEPEST: usize = 1_000;

// Whether at most so many contexts stand around what is innermost in the pattern.
fn are_few_contexts(pattern: &Pat, most: usize) -> bool {
    match pattern {
        Pat::InHole(_, part) => most > 0 && are_few_contexts(part, most - 1),
        Pat::Wild
        | Pat::Kind(_)
        | Pat::Except(_)
        | Pat::Prefix(_)
        | Pat::Hole
        | Pat::Lit(_)
        | Pat::Nt(_)
        | Pat::Named(_, _)
        | Pat::Differ(_, _)
        | Pat::HideHole(_)
        | Pat::Closed(_)
        | Pat::Seq(_) => true,
    }
}

// The name `context`.
fn context(alloc: Global) -> Result<Name, NoMemory>
    ensures { IfOk result (λ x. x ≡ codes "context") }
{
    match Name::new(RcStr::from_str(alloc, "context")?) {
        Some(name) => Ok(name),
        None => unreachable!(),
    }
}

// The name of the context around a step of the rule, which is none that the rule binds.
fn context_name(alloc: Global, rule: &Rule) -> Result<Name, NoMemory>
    ensures same { IfOk result (λ x. x ≡ model.context_name (rule_of rule.now)) }
    ensures free { IfOk result
        (λ x. IsFalse (list_any (bytes_eq x) (model.rule_names (rule_of rule.now)))) }
{
    let names = rule.names(alloc)?;
    first_variant(alloc, &context(alloc)?, &names)
}

// The pattern in a context of this name.
fn pattern_in_context(alloc: Global, name: &Name, by: &Pat, pattern: &Pat) -> Result<Pat, NoMemory>
    ensures { IfOk result (λ p. pattern_of p
        ≡ in_hole (named name.now (closed (pattern_of by.now))) (pattern_of pattern.now)) }
{
    let by = by.share(alloc)?;
    let closed = Pat::Closed(Box::new(alloc, by)?);
    let context = Pat::Named(name.share()?, Box::new(alloc, closed)?);
    let inner = pattern.share(alloc)?;
    Ok(Pat::InHole(Box::new(alloc, context)?, Box::new(alloc, inner)?))
}

// The template in the context of this name.
fn template_in_context(
    alloc: Global,
    name: &Name,
    template: &Template,
) -> Result<Template, NoMemory>
    ensures { IfOk result (λ t.
        template_of t ≡ fill (var name.now 0) (template_of template.now)) }
{
    let context = Template::Var(name.share()?, 0);
    let inner = template.share(alloc)?;
    Ok(Template::Fill(Box::new(alloc, context)?, Box::new(alloc, inner)?))
}

// The rule from a in a context to b in it, of a rule from a to b.
fn closed_rule(
    alloc: Global,
    rule: &Rule,
    language: &CheckedLang,
    by: &CheckedPat,
) -> Result<Rule, NoMemory>
    requires by { IsTrue (is_well_formed_in (language_in language.now) (pattern_in by.now)) }
    requires rule { IsTrue (is_well_formed_in (language_in language.now)
        (rule_of rule.now).pattern) }
    ensures closed { IfOk result (λ r. rule_of r
        ≡ model.closed_rule (pattern_in by.now) (rule_of rule.now)) }
    ensures formed { IfOk result (λ r.
        IsTrue (is_well_formed_in (language_in language.now) (rule_of r).pattern)) }
{
    if !are_few_contexts(rule.pattern.pat(), DEEPEST) {
        return Err(NoMemory);
    }
    let context = context_name(alloc, rule)?;
    let pattern = pattern_in_context(alloc, &context, by.pat(), rule.pattern.pat())?;
    Ok(Rule {
        name: rule.share_name()?,
        pattern: CheckedPat::known(language, pattern),
        extras: rule.share_extras(alloc)?,
        result: template_in_context(alloc, &context, &rule.result)?,
    })
}

// So with each of the rules, in their order.
fn closed_rules(
    alloc: Global,
    rules: &[Rule],
    language: &CheckedLang,
    by: &CheckedPat,
) -> Result<Vec<Rule>, NoMemory>
    requires by { IsTrue (is_well_formed_in (language_in language.now) (pattern_in by.now)) }
    requires rules { IsTrue (list_all (λ r. is_well_formed_in (language_in language.now) r.pattern)
        (map rule_of rules.now)) }
    ensures closed { IfOk result (λ closed. map rule_of closed.items
        ≡ map (model.closed_rule (pattern_in by.now)) (map rule_of rules.now)) }
    ensures formed { IfOk result (λ closed.
        IsTrue (list_all (λ r. is_well_formed_in (language_in language.now) r.pattern)
        (map rule_of closed.items))) }
{
    let mut closed = Vec::new(alloc);
    for rule in rules {
        closed.push(closed_rule(alloc, rule, language, by)?)?;
    }
    Ok(closed)
}

/// The closure of the relation by contexts that the pattern matches: the relation of this name that
/// takes each step of the other one in each such context. The patterns have to be well formed in
/// the language.
pub fn context_closure(
    alloc: Global,
    relation: &Relation,
    name: &Name,
    language: &CheckedLang,
    by: &CheckedPat,
) -> Result<Relation, NoMemory>
    requires by { IsTrue (is_well_formed_in (language_in language.now) (pattern_in by.now)) }
    requires rules { IsTrue (model.has_well_formed_patterns (language_in language.now)
        (relation_of relation.now)) }
    ensures closed { IfOk result (λ r. relation_of r
        ≡ model.context_closure (pattern_in by.now) name.now (relation_of relation.now)) }
    ensures formed { IfOk result (λ r.
        IsTrue (model.has_well_formed_patterns (language_in language.now) (relation_of r))) }
{
    Ok(Relation {
        name: name.share()?,
        language: relation.language.share()?,
        domain: relation.share_domain(alloc)?,
        rules: closed_rules(alloc, &relation.rules, language, by)?,
    })
}

/// The closure of the relation by the contexts of an e in an e. The language has to have the
/// nonterminal of these contexts.
pub fn compatible_closure(
    alloc: Global,
    relation: &Relation,
    name: &Name,
    language: &CheckedLang,
    e: &Name,
) -> Result<Relation, NoMemory>
    requires crosses { IsTrue (is_among (Cross e.now e.now) (defined (language_in language.now))) }
    requires rules { IsTrue (model.has_well_formed_patterns (language_in language.now)
        (relation_of relation.now)) }
    ensures closed { IfOk result (λ r. relation_of r
        ≡ model.compatible_closure e.now name.now (relation_of relation.now)) }
    ensures formed { IfOk result (λ r.
        IsTrue (model.has_well_formed_patterns (language_in language.now) (relation_of r))) }
{
    let contexts = Pat::Nt(Ref::Cross(e.share()?, e.share()?));
    let by = CheckedPat::known(language, contexts);
    context_closure(alloc, relation, name, language, &by)
}
