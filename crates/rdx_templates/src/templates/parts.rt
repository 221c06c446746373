// What stands in a template or a host expression.
ghost use Rattle.std.specs.Prelude.{◌≡◌, ◌<◌, ◌+◌, ◌++◌, ◌∷◌, [], drop, IfOk};
ghost use Rattle.rdx_sexp.specs.Sexp.{sexps};
ghost use Rattle.rdx_sexp.specs.Size.{sexp_depth, sexps_depth};
ghost use Rattle.rdx_patterns.specs.HeadView.{roles_view};
ghost use Rattle.rdx_patterns.specs.Occurrences as occurrences;
ghost use Rattle.rdx_templates.specs.Inside.PartView.{part_of, parts_of, unrepeated};
ghost use Rattle.rdx_templates.specs.Scope.{scope_of};
ghost use Rattle.rdx_templates.specs.TemplateOccurrences as model;

use crate::Scope;
use crate::templates::bound::Bound;
use crate::templates::heads::{TemplateHead, template_head};
use crate::templates::host_heads::{HostHead, host_head};
use rdx_patterns::heads::{Role, Roles, is_pattern, is_repeated, next, rest};
use rdx_sexp::{Datum, Form};
use rdx_term::NoMemory;

/// One of the things that stand in a template. The items that ellipses repeat are left out: all
/// that stands in one decides together whether it may be repeated.
#[derive(Clone, Copy)]
pub(crate) enum TemplatePart<'a> {
    /// A symbol that is a template, and how many ellipses stand around it.
    Single(u32, &'a Datum),
    /// A list that has not the shape that its head asks for.
    Malformed(&'a Datum),
    /// What would ask Racket.
    Escape(&'a Datum),
}

// Adds one thing.
fn add_part<'a>(part: TemplatePart<'a>, out: &mut Vec<TemplatePart<'a>>) -> Result<(), NoMemory>
    ensures { IfOk result (λ _.
        parts_of out.new.items ≡ parts_of out.old.items ++ part_of part.entry ∷ []) }
{
    Ok(out.push(part)?)
}

// One ellipsis more, where there is one.
fn deeper(repeated: bool, depth: u32) -> u32
    requires { depth + 1 < 4_294_967_296 }
    ensures { result ≡ occurrences.deeper repeated depth }
{
    if repeated { depth + 1 } else { depth }
}

/// Adds what stands in a template around which so many ellipses stand.
#[cycle(parts)]
pub(crate) fn add_template<'a>(
    scope: &Scope,
    bound: &Bound<'_>,
    depth: u32,
    d: &'a Datum,
    out: &mut Vec<TemplatePart<'a>>,
) -> Result<(), NoMemory>
    requires { depth + sexp_depth d.now < 4_294_967_296 }
    ensures { IfOk result (λ _.
        parts_of out.new.items
        ≡ parts_of out.old.items
        ++ unrepeated (model.template_parts (scope_of scope.now) bound.now depth d.now)) }
{
    match &d.form {
        Form::Int(_) | Form::Bool(_) | Form::Str(_) | Form::Key(_) => Ok(()),
        Form::Sym(_) => add_part(TemplatePart::Single(depth, d), out),
        Form::List(items) => match template_head(scope, bound, items) {
            TemplateHead::Filling => {
                if items.len() != 3 {
                    return add_part(TemplatePart::Malformed(d), out);
                }
                add_items(
                    scope,
                    bound,
                    depth,
                    Roles::Every(Role::Pattern),
                    1,
                    items,
                    out,
                )
            }
            TemplateHead::Evaluating => add_hosts(scope, bound, depth, items, out),
            TemplateHead::Splicing => add_part(TemplatePart::Escape(d), out),
            TemplateHead::Calling(_) => {
                add_items(scope, bound, depth, Roles::Patterns, 1, items, out)
            }
            TemplateHead::Listing => {
                add_items(scope, bound, depth, Roles::Patterns, 0, items, out)
            }
        },
    }
}

// Adds what stands in the items from this one on, which stand in these roles.
#[cycle(parts)]
fn add_items<'a>(
    scope: &Scope,
    bound: &Bound<'_>,
    depth: u32,
    roles: Roles,
    from: usize,
    items: &'a [Datum],
    out: &mut Vec<TemplatePart<'a>>,
) -> Result<(), NoMemory>
    requires { depth + sexps_depth (sexps items.now) + 1 < 4_294_967_296 }
    ensures { IfOk result (λ _.
        parts_of out.new.items
        ≡ parts_of out.old.items
        ++ unrepeated (model.parts_among (scope_of scope.now) bound.now depth (roles_view roles)
        (sexps (drop from items.now)))) }
{
    let mut left = roles;
    for i in from..items.len() {
        let item = &items[i];
        let role = next(left, item);
        left = rest(left, item);
        if is_pattern(role) {
            let around = deeper(is_repeated(left, &items[i + 1..]), depth);
            add_template(scope, bound, around, item, out)?;
        }
    }
    Ok(())
}

/// Adds what stands in a host expression around which so many ellipses stand.
#[cycle(parts)]
pub(crate) fn add_host<'a>(
    scope: &Scope,
    bound: &Bound<'_>,
    depth: u32,
    d: &'a Datum,
    out: &mut Vec<TemplatePart<'a>>,
) -> Result<(), NoMemory>
    requires { depth + sexp_depth d.now < 4_294_967_296 }
    ensures { IfOk result (λ _.
        parts_of out.new.items
        ≡ parts_of out.old.items
        ++ unrepeated (model.host_parts (scope_of scope.now) bound.now depth d.now)) }
{
    match &d.form {
        Form::Int(_) | Form::Bool(_) => Ok(()),
        Form::Str(_) | Form::Sym(_) | Form::Key(_) => add_part(TemplatePart::Escape(d), out),
        Form::List(items) => match host_head(items) {
            HostHead::Quoting => {
                add_items(
                    scope,
                    bound,
                    depth,
                    Roles::Every(Role::Pattern),
                    1,
                    items,
                    out,
                )
            }
            HostHead::Applying(_) | HostHead::AllOf | HostHead::SomeOf => {
                add_hosts(scope, bound, depth, items, out)
            }
            HostHead::Miscounted => Ok(()),
            HostHead::Foreign => add_part(TemplatePart::Escape(d), out),
        },
    }
}

// Adds what stands in the host expressions behind a head.
#[cycle(parts)]
fn add_hosts<'a>(
    scope: &Scope,
    bound: &Bound<'_>,
    depth: u32,
    items: &'a [Datum],
    out: &mut Vec<TemplatePart<'a>>,
) -> Result<(), NoMemory>
    requires { depth + sexps_depth (sexps items.now) + 1 < 4_294_967_296 }
    ensures { IfOk result (λ _.
        parts_of out.new.items
        ≡ parts_of out.old.items
        ++ unrepeated (model.host_parts_behind (scope_of scope.now) bound.now depth
        (sexps items.now))) }
{
    for i in 1..items.len() {
        add_host(scope, bound, depth, &items[i], out)?;
    }
    Ok(())
}
