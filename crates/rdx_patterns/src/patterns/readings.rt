//! The patterns of data.
ghost use Rattle.std.specs.Prelude.{◌≡◌, ◌++◌, Some, IfOk, OnOk, map, option_map};
ghost use Rattle.std.specs.Bool.{then_some};
ghost use Rattle.std.specs.Rc.{rc_str_bytes};
ghost use Rattle.rdx_lang.specs.PatternView.{pattern_of, slot_of, items_of};
ghost use Rattle.rdx_sexp.specs.Sexp.{sexps};
ghost use Rattle.rdx_term.specs.Spelling.{is_name};
ghost use Rattle.rdx_patterns.specs.HeadView.{role_view, roles_view};
ghost use Rattle.rdx_patterns.specs.Heads.{patterns};
ghost use Rattle.rdx_patterns.specs.Parts.{text_of};
ghost use Rattle.rdx_patterns.specs.Reading as model;

use crate::patterns::assembly::{assembled, differ, named};
use crate::patterns::heads::{Role, Roles, fits, head_among, is_pattern, next, rest, roles_of};
use crate::patterns::kinds::kind;
use crate::patterns::names::Names;
use crate::patterns::position::Position;
use crate::shape::names::{front, has_suffix, is_mismatch};
use crate::shape::{symbol, text};
use rdx_lang::{Item, Pat, Ref};
use rdx_sexp::{Datum, Form};
use rdx_term::{Name, NoMemory, Term};
use std::alloc::Global;
use std::rc::RcStr;

// The built-in name or the nonterminal of this text.
fn base(names: &Names, text: &str) -> Result<Option<Pat>, NoMemory>
    ensures { IfOk result (λ found. option_map pattern_of found ≡ model.base names.now text.now) }
{
    if let Some(kind) = kind(text) {
        return Ok(Some(Pat::Kind(kind)));
    }
    match names.find(text) {
        Some(name) => Ok(Some(Pat::Nt(Ref::Nt(name.share()?)))),
        None => Ok(None),
    }
}

// A symbol with a suffix behind what this pattern stands for: a mismatch name, or one that binds it.
fn suffixed(alloc: Global, name: Name, inner: Pat) -> Result<Pat, NoMemory>
    ensures { IfOk result (λ pat. pattern_of pat ≡ model.suffixed name (Some (pattern_of inner))) }
{
    if is_mismatch(name.text()) {
        differ(alloc, name, inner)
    } else {
        named(alloc, name, inner)
    }
}

// A symbol that is neither a built-in name nor a nonterminal.
fn read_other(alloc: Global, names: &Names, name: Name) -> Result<Pat, NoMemory>
    ensures { IfOk result (λ pat. pattern_of pat ≡ model.other_symbol names.now name) }
{
    if !has_suffix(name.text()) {
        return Ok(Pat::Lit(Term::Sym(name)));
    }
    match base(names, front(name.text()))? {
        Some(inner) => suffixed(alloc, name, inner),
        None => Ok(Pat::Wild),
    }
}

// A symbol that is a name.
fn read_name(alloc: Global, names: &Names, position: Position, name: Name) -> Result<Pat, NoMemory>
    ensures { IfOk result (λ pat.
        pattern_of pat ≡ model.by_base names.now position name (model.base names.now name)) }
{
    match base(names, name.text())? {
        Some(inner) => match position {
            Position::Grammar => Ok(inner),
            Position::Query => named(alloc, name, inner),
        },
        None => read_other(alloc, names, name),
    }
}

fn read_symbol(
    alloc: Global,
    names: &Names,
    position: Position,
    text: &RcStr,
) -> Result<Pat, NoMemory>
    ensures { IfOk result (λ pat.
        pattern_of pat ≡ model.symbol_reading names.now position (rc_str_bytes text.now)) }
{
    if text.as_str() == "_" {
        return Ok(Pat::Wild);
    }
    if text.as_str() == "hole" {
        return Ok(Pat::Hole);
    }
    match Name::new(text.clone()?) {
        Some(name) => read_name(alloc, names, position, name),
        None => Ok(Pat::Wild),
    }
}

// The name that a symbol is, where it is one.
fn name_of(d: &Datum) -> Result<Option<Name>, NoMemory>
    ensures { IfOk result (λ n. n ≡ then_some (is_name (text_of d.now)) (text_of d.now)) }
{
    match symbol(d) {
        Some(text) => Ok(Name::new(text.clone()?)),
        None => Ok(None),
    }
}

/// Puts the name that a symbol is, where it is one, behind those that are there.
pub(crate) fn add_name(d: &Datum, out: &mut Vec<Name>) -> Result<(), NoMemory>
    ensures { OnOk result (out.new.items ≡ out.old.items ++ model.name_in d.now) }
{
    match name_of(d)? {
        Some(name) => Ok(out.push(name)?),
        None => Ok(()),
    }
}

// Puts what an item in this role gives as a name behind the names that are there.
fn add_role_name(role: Option<Role>, d: &Datum, out: &mut Vec<Name>) -> Result<(), NoMemory>
    ensures { OnOk result (
        out.new.items ≡ out.old.items ++ model.role_names (option_map role_view role) d.now) }
{
    match role {
        Some(Role::Bound | Role::Spelt) => add_name(d, out),
        Some(Role::Word | Role::Pattern | Role::Ellipsis | Role::Unread) | None => Ok(()),
    }
}

// The names among items in these roles.
fn names_among(alloc: Global, roles: Roles, items: &[Datum]) -> Result<Vec<Name>, NoMemory>
    ensures { IfOk result (λ names.
        names.items ≡ model.names_among (roles_view roles) (sexps items.now)) }
{
    let mut names = Vec::new(alloc);
    let mut left = roles;
    for item in items {
        let role = next(left, item);
        left = rest(left, item);
        add_role_name(role, item, &mut names)?;
    }
    Ok(names)
}

// The length name of an ellipsis, where it has one.
fn length_name(d: &Datum) -> Result<Option<Name>, NoMemory>
    ensures { IfOk result (λ n. n ≡ model.length_name (text_of d.now)) }
{
    if text(d) == "..." {
        Ok(None)
    } else {
        name_of(d)
    }
}

// The item of a pattern before these others in these roles: repeated, where the first of them is
// its ellipsis.
fn with_ellipsis(roles: Roles, others: &[Datum], pat: Pat) -> Result<Item, NoMemory>
    ensures { IfOk result (λ item.
        slot_of item
        ≡ model.item_slot (model.ellipsis_behind (roles_view roles) (sexps others.now))
        (pattern_of pat)) }
{
    let Some(first) = others.first() else {
        return Ok(Item::One(pat));
    };
    match next(roles, first) {
        Some(Role::Ellipsis) => Ok(Item::Many(pat, length_name(first)?)),
        Some(Role::Word | Role::Bound | Role::Spelt | Role::Pattern | Role::Unread) | None => {
            Ok(Item::One(pat))
        }
    }
}

/// The pattern of a datum over these nonterminals.
#[cycle(read_datum)]
pub fn read_datum(
    alloc: Global,
    names: &Names,
    position: Position,
    d: &Datum,
) -> Result<Pat, NoMemory>
    ensures { IfOk result (λ pat. pattern_of pat ≡ model.reading names.now position d.now) }
{
    match &d.form {
        Form::Int(n) => Ok(Pat::Lit(Term::Int(*n))),
        Form::Bool(b) => Ok(Pat::Lit(Term::Bool(*b))),
        Form::Str(text) => Ok(Pat::Lit(Term::Str(text.clone()?))),
        Form::Sym(text) => read_symbol(alloc, names, position, text),
        Form::Key(_) => Ok(Pat::Wild),
        Form::List(parts) => {
            let head = head_among(parts);
            let roles = roles_of(head);
            if !fits(roles, parts) {
                return Ok(Pat::Wild);
            }
            let found = names_among(alloc, roles, parts)?;
            let items = read_among(alloc, names, position, roles, parts)?;
            assembled(alloc, head, found, items)
        }
    }
}

// The item patterns among items in these roles.
#[cycle(read_datum)]
fn read_among(
    alloc: Global,
    names: &Names,
    position: Position,
    roles: Roles,
    parts: &[Datum],
) -> Result<Vec<Item>, NoMemory>
    ensures { IfOk result (λ items.
        items_of (map slot_of items.items)
        ≡ model.items_among names.now position (roles_view roles) (sexps parts.now)) }
{
    let mut items = Vec::new(alloc);
    let mut left = roles;
    for (i, part) in parts.iter().enumerate() {
        let role = next(left, part);
        left = rest(left, part);
        if is_pattern(role) {
            let pat = read_datum(alloc, names, position, part)?;
            items.push(with_ellipsis(left, &parts[i + 1..], pat)?)?;
        }
    }
    Ok(items)
}

/// The item patterns of items that are patterns, each with an ellipsis behind it or not, over these nonterminals.
pub fn read_items(
    alloc: Global,
    names: &Names,
    position: Position,
    parts: &[Datum],
) -> Result<Vec<Item>, NoMemory>
    ensures { IfOk result (λ items.
        items_of (map slot_of items.items)
        ≡ model.items_among names.now position patterns (sexps parts.now)) }
{
    read_among(alloc, names, position, Roles::Patterns, parts)
}
