//! Lists of patterns by their heads.
ghost use Rattle.std.specs.Prelude.{◌≡◌, option_map};
ghost use Rattle.rdx_sexp.specs.Sexp.{sexps};
ghost use Rattle.rdx_patterns.specs.Heads as model;
ghost use Rattle.rdx_patterns.specs.HeadView.{head_view, role_view, roles_view};
ghost use Rattle.rdx_patterns.specs.Reading as reading;

use crate::shape::names::is_ellipsis;
use crate::shape::{is_symbol, is_word, text};
use rdx_sexp::{Datum, Form};

/// The kinds of lists.
#[derive(Clone, Copy)]
pub enum Head {
    /// `(name x p)`
    Naming,
    /// `(variable-except x ...)`
    Avoiding,
    /// `(variable-prefix x)`
    Prefixing,
    /// `(in-hole p q)`
    Splitting,
    /// `(hide-hole p)`
    Hiding,
    /// `(cross e)`
    Crossing,
    /// a list headed by `unquote` or `side-condition`, which would ask Racket
    Escaping,
    /// every other list, item by item
    Plain,
}

/// What one item of a list is there for.
#[derive(Clone, Copy)]
pub enum Role {
    /// The word at the head.
    Word,
    /// A symbol that is bound.
    Bound,
    /// A symbol other than `hole` that stands for symbols, or for a nonterminal by its name.
    Spelt,
    /// A pattern.
    Pattern,
    /// The ellipsis that repeats the pattern before it.
    Ellipsis,
    /// Whatever it is; it is not read.
    Unread,
}

/// What the items of a list are there for.
#[derive(Clone, Copy)]
pub enum Roles {
    /// No further items.
    Done,
    /// One item.
    One(Role),
    /// Two items.
    Two(Role, Role),
    /// Three items.
    Three(Role, Role, Role),
    /// Any number of items.
    Every(Role),
    /// One item, and behind it any number of others.
    OneAndEvery(Role, Role),
    /// Any number of patterns, each with an ellipsis behind it or not; an ellipsis would repeat nothing.
    Patterns,
    /// The same behind a pattern, which an ellipsis may repeat.
    Repeatable,
}

// The kind of list that begins with this word.
fn head_of(text: &str) -> Head
    ensures { head_view result ≡ model.head_of text.now }
{
    match text {
        "name" => Head::Naming,
        "variable-except" => Head::Avoiding,
        "variable-prefix" => Head::Prefixing,
        "in-hole" => Head::Splitting,
        "hide-hole" => Head::Hiding,
        "cross" => Head::Crossing,
        "unquote" | "side-condition" => Head::Escaping,
        _ => Head::Plain,
    }
}

/// The kind of a list of these items.
pub fn head_among(items: &[Datum]) -> Head
    ensures { head_view result ≡ model.head_among (sexps items.now) }
{
    match items {
        [first, ..] => match &first.form {
            Form::Sym(text) => head_of(text.as_str()),
            _ => Head::Plain,
        },
        [] => Head::Plain,
    }
}

/// The table: what the items of each kind of list are there for.
pub fn roles_of(head: Head) -> Roles
    ensures { roles_view result ≡ model.roles_of (head_view head) }
{
    match head {
        Head::Naming => Roles::Three(Role::Word, Role::Bound, Role::Pattern),
        Head::Avoiding => Roles::OneAndEvery(Role::Word, Role::Spelt),
        Head::Prefixing | Head::Crossing => Roles::Two(Role::Word, Role::Spelt),
        Head::Splitting => Roles::Three(Role::Word, Role::Pattern, Role::Pattern),
        Head::Hiding => Roles::Two(Role::Word, Role::Pattern),
        Head::Escaping => Roles::OneAndEvery(Role::Word, Role::Unread),
        Head::Plain => Roles::Patterns,
    }
}

// Whether the datum is an ellipsis.
fn is_ellipsis_symbol(d: &Datum) -> bool
    ensures { result ≡ model.is_ellipsis_symbol d.now }
{
    is_symbol(d) && is_ellipsis(text(d))
}

/// The role of the next item, where there may be one.
pub fn next(roles: Roles, item: &Datum) -> Option<Role>
    ensures { option_map role_view result ≡ model.next (roles_view roles) item.now }
{
    match roles {
        Roles::Done => None,
        Roles::One(role)
        | Roles::Two(role, _)
        | Roles::Three(role, _, _)
        | Roles::Every(role)
        | Roles::OneAndEvery(role, _) => Some(role),
        Roles::Patterns => Some(Role::Pattern),
        Roles::Repeatable => {
            Some(if is_ellipsis_symbol(item) {
                Role::Ellipsis
            } else {
                Role::Pattern
            })
        }
    }
}

/// The roles of the items behind it.
pub fn rest(roles: Roles, item: &Datum) -> Roles
    ensures { roles_view result ≡ model.rest (roles_view roles) item.now }
{
    match roles {
        Roles::Done | Roles::One(_) => Roles::Done,
        Roles::Two(_, second) => Roles::One(second),
        Roles::Three(_, second, third) => Roles::Two(second, third),
        Roles::Every(role) | Roles::OneAndEvery(_, role) => Roles::Every(role),
        Roles::Patterns => Roles::Repeatable,
        Roles::Repeatable => {
            if is_ellipsis_symbol(item) {
                Roles::Patterns
            } else {
                Roles::Repeatable
            }
        }
    }
}

/// Whether an item in this role is a pattern.
pub fn is_pattern(role: Option<Role>) -> bool
    ensures { result ≡ reading.is_pattern (option_map role_view role) }
{
    match role {
        Some(Role::Pattern) => true,
        Some(Role::Word | Role::Bound | Role::Spelt | Role::Ellipsis | Role::Unread) | None => {
            false
        },
    }
}

// Whether an item in this role is an ellipsis.
fn is_of_ellipsis(role: Option<Role>) -> bool
    ensures { result ≡ model.is_of_ellipsis (option_map role_view role) }
{
    match role {
        Some(Role::Ellipsis) => true,
        Some(Role::Word | Role::Bound | Role::Spelt | Role::Pattern | Role::Unread) | None => {
            false
        },
    }
}

/// Whether the first of the items in these roles is the ellipsis that repeats the item before them.
pub fn is_repeated(roles: Roles, items: &[Datum]) -> bool
    ensures { result ≡ model.is_repeated (roles_view roles) (sexps items.now) }
{
    match items {
        [first, ..] => is_of_ellipsis(next(roles, first)),
        [] => false,
    }
}

// Whether no item need follow.
fn may_end(roles: Roles) -> bool
    ensures { result ≡ model.may_end (roles_view roles) }
{
    match roles {
        Roles::Done | Roles::Every(_) | Roles::Patterns | Roles::Repeatable => true,
        Roles::One(_) | Roles::Two(_, _) | Roles::Three(_, _, _) | Roles::OneAndEvery(_, _) => {
            false
        }
    }
}

// Whether the datum may stand in this role.
fn suits(role: Option<Role>, d: &Datum) -> bool
    ensures { result ≡ model.suits (option_map role_view role) d.now }
{
    match role {
        None => false,
        Some(Role::Word | Role::Bound | Role::Ellipsis) => is_symbol(d),
        Some(Role::Spelt) => is_symbol(d) && !is_word(d, "hole"),
        Some(Role::Pattern | Role::Unread) => true,
    }
}

/// Whether the items may stand in these roles, and no other is missing.
pub fn fits(roles: Roles, items: &[Datum]) -> bool
    ensures { result ≡ model.fits (roles_view roles) (sexps items.now) }
{
    let mut left = roles;
    for item in items {
        if !suits(next(left, item), item) {
            return false;
        }
        left = rest(left, item);
    }
    may_end(left)
}
