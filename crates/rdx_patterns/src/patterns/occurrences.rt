//! What stands in a pattern.
ghost use Rattle.std.specs.Prelude.{◌≡◌, ◌<◌, ◌+◌, ◌++◌, ◌∷◌, [], IfOk, option_map};
ghost use Rattle.rdx_sexp.specs.Sexp.{sexps};
ghost use Rattle.rdx_sexp.specs.Size.{sexp_depth, sexps_depth};
ghost use Rattle.rdx_patterns.specs.HeadView.{head_view, role_view, roles_view};
ghost use Rattle.rdx_patterns.specs.Heads.{patterns};
ghost use Rattle.rdx_patterns.specs.OccurrenceView.{occurrence_of, occurrences_of};
ghost use Rattle.rdx_patterns.specs.Occurrences as model;

use crate::patterns::heads::{
    Head, Role, Roles, fits, head_among, is_pattern, is_repeated, next, rest, roles_of,
};
use rdx_sexp::{Datum, Form};
use rdx_term::NoMemory;

/// One of the things that stand in a pattern; of what may bind a name also how many repetitions stand around it.
#[derive(Clone, Copy)]
pub enum Occurrence<'a> {
    /// A keyword.
    Key(&'a Datum),
    /// A symbol that is bound, as by `(name x p)`.
    Binder(usize, &'a Datum),
    /// A symbol that is a pattern.
    Single(usize, &'a Datum),
    /// The ellipsis of a repetition.
    Repeats(usize, &'a Datum),
    /// A symbol that `variable-except`, `variable-prefix` or `cross` names.
    Excepted(&'a Datum),
    /// A list `(cross e)`.
    Across(&'a Datum),
    /// A list that has not the shape that its head asks for.
    Malformed(&'a Datum),
    /// A list that would ask Racket.
    Escape(&'a Datum),
}

// Adds one thing.
fn add_one<'a>(one: Occurrence<'a>, out: &mut Vec<Occurrence<'a>>) -> Result<(), NoMemory>
    ensures { IfOk result (λ _.
        occurrences_of out.new.items
        ≡ occurrences_of out.old.items ++ occurrence_of one.entry ∷ []) }
{
    Ok(out.push(one)?)
}

// Adds the keywords in a datum.
fn add_keys<'a>(d: &'a Datum, out: &mut Vec<Occurrence<'a>>) -> Result<(), NoMemory>
    ensures { IfOk result (λ _.
        occurrences_of out.new.items ≡ occurrences_of out.old.items ++ model.keys d.now) }
{
    match &d.form {
        Form::Int(_) | Form::Bool(_) | Form::Str(_) | Form::Sym(_) => Ok(()),
        Form::Key(_) => add_one(Occurrence::Key(d), out),
        Form::List(items) => {
            for item in items {
                add_keys(item, out)?;
            }
            Ok(())
        }
    }
}

// Adds what an item in this role is, where it is no pattern.
fn add_other<'a>(
    depth: usize,
    role: Option<Role>,
    d: &'a Datum,
    out: &mut Vec<Occurrence<'a>>,
) -> Result<(), NoMemory>
    ensures { IfOk result (λ _.
        occurrences_of out.new.items
        ≡ occurrences_of out.old.items
        ++ model.role_occurrences depth (option_map role_view role) d.now []) }
{
    match role {
        Some(Role::Bound) => add_one(Occurrence::Binder(depth, d), out),
        Some(Role::Spelt) => add_one(Occurrence::Excepted(d), out),
        Some(Role::Ellipsis) => add_one(Occurrence::Repeats(depth, d), out),
        Some(Role::Unread) => add_keys(d, out),
        Some(Role::Word | Role::Pattern) | None => Ok(()),
    }
}

// One repetition more, where there is one.
fn deeper(repeated: bool, depth: usize) -> usize
    requires { depth + 1 < 4_294_967_296 }
    ensures { result ≡ model.deeper repeated depth }
{
    if repeated { depth + 1 } else { depth }
}

// Adds the list with this head, where it is `(cross e)` or would ask Racket.
fn add_head<'a>(head: Head, d: &'a Datum, out: &mut Vec<Occurrence<'a>>) -> Result<(), NoMemory>
    ensures { IfOk result (λ _.
        occurrences_of out.new.items
        ≡ occurrences_of out.old.items ++ model.head_occurrences (head_view head) d.now) }
{
    match head {
        Head::Crossing => add_one(Occurrence::Across(d), out),
        Head::Escaping => add_one(Occurrence::Escape(d), out),
        Head::Naming
        | Head::Avoiding
        | Head::Prefixing
        | Head::Splitting
        | Head::Hiding
        | Head::Plain => Ok(()),
    }
}

/// Adds what stands in a pattern around which so many repetitions stand.
#[cycle(add_pattern)]
pub fn add_pattern<'a>(
    depth: usize,
    d: &'a Datum,
    out: &mut Vec<Occurrence<'a>>,
) -> Result<(), NoMemory>
    requires { depth + sexp_depth d.now < 4_294_967_296 }
    ensures { IfOk result (λ _.
        occurrences_of out.new.items
        ≡ occurrences_of out.old.items ++ model.occurrences depth d.now) }
{
    match &d.form {
        Form::Int(_) | Form::Bool(_) | Form::Str(_) => Ok(()),
        Form::Sym(_) => add_one(Occurrence::Single(depth, d), out),
        Form::Key(_) => add_one(Occurrence::Key(d), out),
        Form::List(items) => {
            let head = head_among(items);
            let roles = roles_of(head);
            if !fits(roles, items) {
                add_one(Occurrence::Malformed(d), out)?;
                return add_keys(d, out);
            }
            add_head(head, d, out)?;
            add_items(depth, roles, items, out)
        }
    }
}

// Adds what stands in items in these roles, around which so many repetitions stand.
#[cycle(add_pattern)]
fn add_items<'a>(
    depth: usize,
    roles: Roles,
    items: &'a [Datum],
    out: &mut Vec<Occurrence<'a>>,
) -> Result<(), NoMemory>
    requires { depth + 1 + sexps_depth (sexps items.now) < 4_294_967_296 }
    ensures { IfOk result (λ _.
        occurrences_of out.new.items
        ≡ occurrences_of out.old.items
        ++ model.occurrences_among depth (roles_view roles) (sexps items.now)) }
{
    let mut left = roles;
    for (i, item) in items.iter().enumerate() {
        let role = next(left, item);
        left = rest(left, item);
        if is_pattern(role) {
            add_pattern(deeper(is_repeated(left, &items[i + 1..]), depth), item, out)?;
        } else {
            add_other(depth, role, item, out)?;
        }
    }
    Ok(())
}

/// Adds what stands in items that are patterns, each with an ellipsis behind it or not, around which so many repetitions stand.
pub fn add_patterns<'a>(
    depth: usize,
    items: &'a [Datum],
    out: &mut Vec<Occurrence<'a>>,
) -> Result<(), NoMemory>
    requires { depth + 1 + sexps_depth (sexps items.now) < 4_294_967_296 }
    ensures { IfOk result (λ _.
        occurrences_of out.new.items
        ≡ occurrences_of out.old.items
        ++ model.occurrences_among depth patterns (sexps items.now)) }
{
    add_items(depth, Roles::Patterns, items, out)
}
