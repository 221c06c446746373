// Which ellipses the names in a template or a host expression drive.
ghost use Rattle.std.specs.Prelude.{◌≡◌, None, drop, option_map};
ghost use Rattle.std.specs.Rc.{rc_str_bytes};
ghost use Rattle.rdx_sexp.specs.Sexp.{sexps};
ghost use Rattle.rdx_patterns.specs.HeadView.{roles_view};
ghost use Rattle.rdx_patterns.specs.PatternChecks.{when};
ghost use Rattle.rdx_templates.specs.Earliest.{earliest, lesser, start};
ghost use Rattle.rdx_templates.specs.Reach as model;
ghost use Rattle.rdx_templates.specs.Scope.{scope_of};
ghost use Rattle.rdx_templates.specs.TemplateChecks.{undriven_parts};
ghost use Rattle.rdx_templates.specs.TemplateOccurrences.{template_parts, parts_among, host_parts, host_parts_behind};
ghost use Rattle.rdx_templates.specs.TemplateReading.{symbol_template, template_reading, templates_among, host_reading, hosts_behind};

use crate::Scope;
use crate::earliest::earlier;
use crate::templates::bound::Bound;
use crate::templates::heads::{TemplateHead, template_head};
use crate::templates::host_heads::{HostHead, host_head};
use rdx_patterns::heads::{Role, Roles, is_pattern, is_repeated, next, rest};
use rdx_sexp::{Datum, Form};

/// How many of the ellipses right around a template the names in it drive, and the earliest item in
/// it that drives no ellipsis behind it.
#[derive(Clone, Copy)]
pub struct Driving<'a> {
    pub reach: u32,
    pub undriven: Option<&'a Datum>,
}

// So many ellipses, and no undriven item.
fn reaching<'a>(reach: u32) -> Driving<'a>
    ensures reach { result.reach ≡ reach }
    ensures undriven { option_map (λ d. d.now) result.undriven ≡ None }
{
    Driving {
        reach,
        undriven: None,
    }
}

// How many ellipses a symbol drives.
fn symbol_reach(bound: &Bound<'_>, text: &str) -> u32
    ensures { result ≡ model.reach (symbol_template bound.now text.now) }
{
    match bound.depth_of(text) {
        Some(depth) => depth,
        None => 0,
    }
}

// How many ellipses an item drives around the list that it stands in.
fn outside(repeated: bool, reach: u32) -> u32
    ensures { result ≡ model.outside repeated reach }
{
    if repeated {
        reach.saturating_sub(1)
    } else {
        reach
    }
}

// The item, where the ellipsis behind it is driven by nothing in it.
fn undriven_item(repeated: bool, item: &Datum, reach: u32) -> Option<&Datum>
    ensures { option_map (λ d. d.now) result
        ≡ earliest start (when (model.is_undriven repeated reach) item.now) }
{
    if repeated && reach == 0 {
        Some(item)
    } else {
        None
    }
}

// The earliest undriven item of one item and what stands in it.
fn undriven_in<'a>(repeated: bool, item: &'a Datum, inner: Driving<'a>) -> Option<&'a Datum>
    ensures { option_map (λ d. d.now) result
        ≡ lesser start (earliest start (when (model.is_undriven repeated inner.entry.reach)
        item.now)) (option_map (λ d. d.now) inner.entry.undriven) }
{
    earlier(undriven_item(repeated, item, inner.reach), inner.undriven)
}

/// What the names in the template of a datum drive, in one walk.
#[cycle(driving)]
pub fn driving_of<'a>(scope: &Scope, bound: &Bound<'_>, d: &'a Datum) -> Driving<'a>
    ensures reach { result.reach
        ≡ model.reach (template_reading (scope_of scope.now) bound.now d.now) }
    ensures undriven { option_map (λ d. d.now) result.undriven
        ≡ earliest start (undriven_parts (scope_of scope.now) bound.now
        (template_parts (scope_of scope.now) bound.now 0 d.now)) }
{
    match &d.form {
        Form::Int(_) | Form::Bool(_) | Form::Str(_) | Form::Key(_) => reaching(0),
        Form::Sym(text) => reaching(symbol_reach(bound, text.as_str())),
        Form::List(items) => match template_head(scope, bound, items) {
            TemplateHead::Filling => {
                if items.len() != 3 {
                    return reaching(0);
                }
                driving_of_items(scope, bound, Roles::Every(Role::Pattern), 1, items)
            }
            TemplateHead::Evaluating => driving_of_hosts(scope, bound, items),
            TemplateHead::Splicing => reaching(0),
            TemplateHead::Calling(_) => driving_of_items(scope, bound, Roles::Patterns, 1, items),
            TemplateHead::Listing => driving_of_items(scope, bound, Roles::Patterns, 0, items),
        },
    }
}

// What those do in the items from this one on, which stand in these roles.
#[cycle(driving)]
fn driving_of_items<'a>(
    scope: &Scope,
    bound: &Bound<'_>,
    roles: Roles,
    from: usize,
    items: &'a [Datum],
) -> Driving<'a>
    ensures reach { result.reach
        ≡ model.reach_among (templates_among (scope_of scope.now) bound.now (roles_view roles)
        (sexps (drop from items.now))) }
    ensures undriven { option_map (λ d. d.now) result.undriven
        ≡ earliest start (undriven_parts (scope_of scope.now) bound.now
        (parts_among (scope_of scope.now) bound.now 0 (roles_view roles)
        (sexps (drop from items.now)))) }
{
    let mut left = roles;
    let mut reach = 0;
    let mut undriven = None;
    for i in from..items.len() {
        let item = &items[i];
        let role = next(left, item);
        left = rest(left, item);
        if is_pattern(role) {
            let repeated = is_repeated(left, &items[i + 1..]);
            let inner = driving_of(scope, bound, item);
            reach = reach.max(outside(repeated, inner.reach));
            undriven = earlier(undriven, undriven_in(repeated, item, inner));
        }
    }
    Driving { reach, undriven }
}

/// What those do in the host expression of a datum.
#[cycle(driving)]
pub fn driving_of_host<'a>(scope: &Scope, bound: &Bound<'_>, d: &'a Datum) -> Driving<'a>
    ensures reach { result.reach
        ≡ model.reach_in (host_reading (scope_of scope.now) bound.now d.now) }
    ensures undriven { option_map (λ d. d.now) result.undriven
        ≡ earliest start (undriven_parts (scope_of scope.now) bound.now
        (host_parts (scope_of scope.now) bound.now 0 d.now)) }
{
    match &d.form {
        Form::Int(_) | Form::Bool(_) | Form::Str(_) | Form::Sym(_) | Form::Key(_) => reaching(0),
        Form::List(items) => match host_head(items) {
            HostHead::Quoting => {
                driving_of_items(scope, bound, Roles::Every(Role::Pattern), 1, items)
            }
            HostHead::Applying(_) | HostHead::AllOf | HostHead::SomeOf => {
                driving_of_hosts(scope, bound, items)
            }
            HostHead::Miscounted | HostHead::Foreign => reaching(0),
        },
    }
}

// What those do in the host expressions behind a head.
#[cycle(driving)]
fn driving_of_hosts<'a>(scope: &Scope, bound: &Bound<'_>, items: &'a [Datum]) -> Driving<'a>
    ensures reach { result.reach
        ≡ model.reach_in_all (hosts_behind (scope_of scope.now) bound.now (sexps items.now)) }
    ensures undriven { option_map (λ d. d.now) result.undriven
        ≡ earliest start (undriven_parts (scope_of scope.now) bound.now
        (host_parts_behind (scope_of scope.now) bound.now 0 (sexps items.now))) }
{
    let mut reach = 0;
    let mut undriven = None;
    for i in 1..items.len() {
        let inner = driving_of_host(scope, bound, &items[i]);
        reach = reach.max(inner.reach);
        undriven = earlier(undriven, inner.undriven);
    }
    Driving { reach, undriven }
}
