// The templates and host expressions of data.
ghost use Rattle.std.specs.Prelude.{◌≡◌, drop, IfOk, map, option_map};
ghost use Rattle.std.specs.Rc.{rc_str_bytes};
ghost use Rattle.rdx_sexp.specs.Sexp.{sexps};
ghost use Rattle.rdx_lang.specs.TemplateView.{template_of, part_of, items_of, host_of, hosts_of};
ghost use Rattle.rdx_patterns.specs.HeadView.{roles_view};
ghost use Rattle.rdx_templates.specs.Inside.ItemParts as inside;
ghost use Rattle.rdx_templates.specs.Scope.{scope_of};
ghost use Rattle.rdx_templates.specs.TemplateReading as model;

use crate::Scope;
use crate::templates::bound::Bound;
use crate::templates::heads::{TemplateHead, template_head};
use crate::templates::host_heads::{HostHead, host_head};
use rdx_lang::{HostExpr, TItem, Template};
use rdx_patterns::heads::{Role, Roles, is_pattern, is_repeated, next, rest};
use rdx_sexp::{Datum, Form};
use rdx_term::{Name, NoMemory, Term};
use std::alloc::Global;
use std::rc::RcStr;

// The template of a name, by the depth with which it is bound, where it is.
fn by_depth(name: Name, depth: Option<u32>) -> Template
    ensures { template_of result ≡ model.by_depth name depth }
{
    match depth {
        Some(depth) => Template::Var(name, depth),
        None => Template::Lit(Term::Sym(name)),
    }
}

fn read_symbol(bound: &Bound<'_>, text: &RcStr) -> Result<Template, NoMemory>
    ensures { IfOk result (λ t.
        template_of t ≡ model.symbol_template bound.now (rc_str_bytes text.now)) }
{
    match Name::new(text.clone()?) {
        Some(name) => {
            let depth = bound.depth_of(name.text());
            Ok(by_depth(name, depth))
        }
        None => Ok(Template::Lit(Term::Hole)),
    }
}

// The item that a template is, by itself or under an ellipsis.
fn item_of(repeated: bool, t: Template) -> TItem
    ensures { part_of result ≡ inside.item_part repeated (template_of t) }
{
    if repeated {
        TItem::Many(t)
    } else {
        TItem::One(t)
    }
}

// The template of a list of one item that no ellipsis repeats.
fn only_item(mut items: Vec<TItem>) -> Option<Template>
    ensures { option_map template_of result ≡ inside.only_item (items_of (map part_of items.items)) }
{
    if items.len() != 1 {
        return None;
    }
    match items.pop() {
        Some(TItem::One(t)) => Some(t),
        Some(TItem::Many(_)) | None => None,
    }
}

// The templates of a list of two such items.
fn only_items(mut items: Vec<TItem>) -> Option<(Template, Template)>
    ensures { option_map (λ ts. (template_of ts.0, template_of ts.1)) result
        ≡ inside.only_items (items_of (map part_of items.items)) }
{
    match items.pop() {
        Some(TItem::One(inside)) => {
            let context = only_item(items)?;
            Some((context, inside))
        }
        Some(TItem::Many(_)) => None,
        None => None,
    }
}

// The context and what fills it, where these are the two.
fn filled_by(alloc: Global, items: Vec<TItem>) -> Result<Template, NoMemory>
    ensures { IfOk result (λ t.
        template_of t ≡ model.filled_by (items_of (map part_of items.items))) }
{
    match only_items(items) {
        Some((context, inside)) => Ok(Template::Fill(
            Box::new(alloc, context)?,
            Box::new(alloc, inside)?,
        )),
        None => Ok(Template::Lit(Term::Hole)),
    }
}

// The host expression of a list of one.
fn only_host(mut hosts: Vec<HostExpr>) -> Option<HostExpr>
    ensures { option_map host_of result ≡ inside.only_host (hosts_of (map host_of hosts.items)) }
{
    if hosts.len() != 1 {
        return None;
    }
    hosts.pop()
}

// The template of the host expression, where these are the one.
fn hosted(alloc: Global, hosts: Vec<HostExpr>) -> Result<Template, NoMemory>
    ensures { IfOk result (λ t.
        template_of t ≡ model.hosted (hosts_of (map host_of hosts.items))) }
{
    match only_host(hosts) {
        Some(host) => Ok(Template::Host(Box::new(alloc, host)?)),
        None => Ok(Template::Lit(Term::Hole)),
    }
}

// The host expression of the template, where these are the one.
fn quoted(items: Vec<TItem>) -> HostExpr
    ensures { host_of result ≡ model.quoted (items_of (map part_of items.items)) }
{
    match only_item(items) {
        Some(t) => HostExpr::Term(t),
        None => HostExpr::Bool(false),
    }
}

/// The template of a datum where these names are bound.
#[cycle(readings)]
pub fn read_datum(
    alloc: Global,
    scope: &Scope,
    bound: &Bound<'_>,
    d: &Datum,
) -> Result<Template, NoMemory>
    ensures { IfOk result (λ t.
        template_of t ≡ model.template_reading (scope_of scope.now) bound.now d.now) }
{
    match &d.form {
        Form::Int(n) => Ok(Template::Lit(Term::Int(*n))),
        Form::Bool(b) => Ok(Template::Lit(Term::Bool(*b))),
        Form::Str(text) => Ok(Template::Lit(Term::Str(text.clone()?))),
        Form::Sym(text) => read_symbol(bound, text),
        Form::Key(_) => Ok(Template::Lit(Term::Hole)),
        Form::List(items) => match template_head(scope, bound, items) {
            TemplateHead::Filling => {
                let roles = Roles::Every(Role::Pattern);
                filled_by(alloc, read_items(alloc, scope, bound, roles, 1, items)?)
            }
            TemplateHead::Evaluating => hosted(alloc, read_hosts(alloc, scope, bound, items)?),
            TemplateHead::Splicing => Ok(Template::Lit(Term::Hole)),
            TemplateHead::Calling(function) => {
                let read = read_items(alloc, scope, bound, Roles::Patterns, 1, items)?;
                Ok(Template::Call(function.share()?, read))
            }
            TemplateHead::Listing => {
                let read = read_items(alloc, scope, bound, Roles::Patterns, 0, items)?;
                Ok(Template::Seq(read))
            }
        },
    }
}

// The item templates among the items from this one on, which stand in these roles.
#[cycle(readings)]
fn read_items(
    alloc: Global,
    scope: &Scope,
    bound: &Bound<'_>,
    roles: Roles,
    from: usize,
    items: &[Datum],
) -> Result<Vec<TItem>, NoMemory>
    ensures { IfOk result (λ read.
        items_of (map part_of read.items)
        ≡ model.templates_among (scope_of scope.now) bound.now (roles_view roles)
        (sexps (drop from items.now))) }
{
    let mut read = Vec::new(alloc);
    let mut left = roles;
    for i in from..items.len() {
        let item = &items[i];
        let role = next(left, item);
        left = rest(left, item);
        if is_pattern(role) {
            let t = read_datum(alloc, scope, bound, item)?;
            read.push(item_of(is_repeated(left, &items[i + 1..]), t))?;
        }
    }
    Ok(read)
}

/// The host expression of a datum where these names are bound.
#[cycle(readings)]
pub fn read_host_datum(
    alloc: Global,
    scope: &Scope,
    bound: &Bound<'_>,
    d: &Datum,
) -> Result<HostExpr, NoMemory>
    ensures { IfOk result (λ h.
        host_of h ≡ model.host_reading (scope_of scope.now) bound.now d.now) }
{
    match &d.form {
        Form::Int(n) => Ok(HostExpr::Int(*n)),
        Form::Bool(b) => Ok(HostExpr::Bool(*b)),
        Form::Str(_) | Form::Sym(_) | Form::Key(_) => Ok(HostExpr::Bool(false)),
        Form::List(items) => match host_head(items) {
            HostHead::Quoting => {
                let roles = Roles::Every(Role::Pattern);
                Ok(quoted(read_items(alloc, scope, bound, roles, 1, items)?))
            }
            HostHead::Applying(op) => {
                Ok(HostExpr::Call(op, read_hosts(alloc, scope, bound, items)?))
            }
            HostHead::AllOf => Ok(HostExpr::And(read_hosts(alloc, scope, bound, items)?)),
            HostHead::SomeOf => Ok(HostExpr::Or(read_hosts(alloc, scope, bound, items)?)),
            HostHead::Miscounted | HostHead::Foreign => Ok(HostExpr::Bool(false)),
        },
    }
}

// The host expressions behind a head.
#[cycle(readings)]
fn read_hosts(
    alloc: Global,
    scope: &Scope,
    bound: &Bound<'_>,
    items: &[Datum],
) -> Result<Vec<HostExpr>, NoMemory>
    ensures { IfOk result (λ read.
        hosts_of (map host_of read.items)
        ≡ model.hosts_behind (scope_of scope.now) bound.now (sexps items.now)) }
{
    let mut read = Vec::new(alloc);
    for i in 1..items.len() {
        read.push(read_host_datum(alloc, scope, bound, &items[i])?)?;
    }
    Ok(read)
}
