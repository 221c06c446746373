// Forms that generate a term of a pattern, and forms that look for one by which a host expression makes
// `#f`: their shape, their refusal and what they ask.
ghost use Rattle.std.specs.Prelude.{◌≡◌, ◌<◌, ◌++◌, List, [], length, get_or, option_map, IfOk};
ghost use Rattle.rdx_lang.specs.Checked.{language_in};
ghost use Rattle.rdx_lang.specs.declared.checked.CheckedLang.{CheckedLang};
ghost use Rattle.rdx_parts.specs.PartsHave.{BindNames};
ghost use Rattle.rdx_parts.specs.Stands.{bound_among, names_bound};
ghost use Rattle.rdx_patterns.specs.Among.{AreAmong};
ghost use Rattle.rdx_patterns.specs.Ends.{ends_in};
ghost use Rattle.rdx_patterns.specs.Nonterminals.{names_of};
ghost use Rattle.rdx_patterns.specs.OccurrenceView.{occurrences_of};
ghost use Rattle.rdx_patterns.specs.Readable.{IsReadable};
ghost use Rattle.rdx_sexp.specs.Sexp.{Sexp};
ghost use Rattle.rdx_templates.specs.Answers.{ReadsHost};
ghost use Rattle.rdx_templates.specs.Earliest.{earliest, start};
ghost use Rattle.rdx_templates.specs.Scope.{scope_of};
ghost use Rattle.rdx_forms.specs.Answers.{CheckAskedBy, GenerateAskedBy};
ghost use Rattle.rdx_forms.specs.Fitting.{AreCrossed};
ghost use Rattle.rdx_forms.specs.GenerateForms as model;
ghost use Rattle.rdx_forms.specs.Inside.Generating.{CheckNumbers, GenerateFitsBy, GenerateNumbers, PassesBy, ReadsBoth, names_to_read};
ghost use Rattle.rdx_forms.specs.Inside.PartViews.{generate_of};
ghost use Rattle.rdx_forms.specs.KnownView.{known_of};
ghost use Rattle.rdx_forms.specs.Options.{attempts_option, number, number_or, option_faults, option_number, seed_option};

use crate::earlier::{both, first_fault};
use crate::known::Known;
use crate::language_forms::empty_language;
use crate::lookup::place_named;
use crate::match_forms::read_over as read_pattern_at;
use crate::options::{Open, OptionKind, are_options, number_in, option_fault, option_value};
use crate::parts::{GenerateParts, generate_parts};
use crate::refusals::misshaped;
use rdx_lang::{CheckedPat, HostExpr};
use rdx_patterns::checks::{bound_by, first_bad_binder};
use rdx_patterns::occurrences::{Occurrence, add_pattern};
use rdx_patterns::refusal::{named, unnamed};
use rdx_patterns::shape::{is_symbol, text};
use rdx_patterns::{DefFault, DefKind, Names, Position, read_pattern, symbol_name};
use rdx_sexp::{Datum, Form};
use rdx_templates::earliest::earlier;
use rdx_templates::{Scope, read_host};
use rdx_term::{Name, NoMemory};
use std::alloc::Global;

/// What a form asks that generates a term: for one of the pattern with this size, in the language of this
/// name, from the words of the seed.
#[derive(Drop)]
pub struct Generating {
    pub name: Name,
    pub pat: CheckedPat,
    pub size: u32,
    pub seed: u64,
}

/// What a form asks that checks a property: whether the host expression makes `#f` for a binding by which
/// the pattern matches one of so many terms generated of it.
#[derive(Drop)]
pub struct Checking {
    pub name: Name,
    pub pat: CheckedPat,
    pub host: HostExpr,
    pub attempts: u32,
    pub seed: u64,
}

// The greatest size.
const MOST_SIZE: i128 = 30;

// The seed where none is given.
const USUAL_SEED: u64 = 42;

// How many attempts are made where no number is given.
const USUAL_ATTEMPTS: u32 = 1_000;

// ---- the shape

// The parts of a form that checks a property: its language is a symbol, and behind its three parts stand
// options in pairs.
fn check_parts(form: &Datum) -> Option<GenerateParts<'_>>
    ensures { option_map generate_of result ≡ model.check_parts form.now }
{
    let parts = generate_parts(form)?;
    if is_symbol(parts.language) && are_options(parts.options) {
        Some(parts)
    } else {
        None
    }
}

// Whether the datum is an integer.
fn is_integer(d: &Datum) -> bool
    ensures { result ≡ model.is_integer d.now }
{
    matches!(&d.form, Form::Int(_))
}

// Those of a form that generates a term: the third is an integer.
fn sized_parts(form: &Datum) -> Option<GenerateParts<'_>>
    ensures { option_map generate_of result ≡ model.generate_parts form.now }
{
    let parts = check_parts(form)?;
    if is_integer(parts.third) {
        Some(parts)
    } else {
        None
    }
}

// The parts, where the form has them.
fn check_shape<'a>(
    form: &Datum,
    parts: Option<GenerateParts<'a>>,
) -> Result<GenerateParts<'a>, DefFault>
    ensures { GenerateFitsBy form.now (option_map generate_of parts.entry) result }
{
    let Some(parts) = parts else {
        return Err(DefFault::Refused(misshaped(form)));
    };
    Ok(parts)
}

// ---- numbers

// The size, where it is not in order.
fn size_fault(d: &Datum) -> Option<&Datum>
    ensures { option_map (λ d. d.now) result ≡ earliest start (model.size_faults d.now) }
{
    match &d.form {
        Form::Int(number) if (0..=MOST_SIZE).contains(number) => None,
        _ => Some(d),
    }
}

// The size, where it is in order.
fn size_of(d: &Datum) -> u32
    requires { model.size_faults d.now ≡ [] }
    ensures { result ≡ number_or 0 (number d.now) }
{
    match number_in(d) {
        Some(size) => size as u32,
        None => 0,
    }
}

// How many attempts, where the options are in order.
fn attempts_of(options: &[Datum]) -> u32
    requires { option_faults model.check_options options.now ≡ [] }
    ensures { result ≡ number_or model.usual_attempts (option_number attempts_option options.now) }
{
    match option_value(OptionKind::Attempts, options) {
        Some(attempts) => attempts as u32,
        None => USUAL_ATTEMPTS,
    }
}

// The seed.
fn seed_of(options: &[Datum]) -> u64
    ensures { result ≡ number_or model.usual_seed (option_number seed_option options.now) }
{
    option_value(OptionKind::Seed, options).unwrap_or(USUAL_SEED)
}

// Nothing, where nothing is at fault; else its refusal.
fn refuse_number(fault: Option<&Datum>) -> Result<(), DefFault>
    ensures { (ds : List Sexp) → option_map (λ d. d.now) fault.entry ≡ earliest start ds
        → PassesBy ds result }
{
    match fault {
        Some(d) => Err(DefFault::Refused(unnamed(DefKind::Shape, d))),
        None => Ok(()),
    }
}

// The size and the seed of a form that generates a term.
fn read_generating(parts: GenerateParts<'_>) -> Result<(u32, u64), DefFault>
    ensures { GenerateNumbers (generate_of parts.entry) result }
{
    let allowed = Open {
        seed: true,
        attempts: false,
    };
    let fault = earlier(
        size_fault(parts.third),
        option_fault(allowed, parts.options),
    );
    refuse_number(fault)?;
    Ok((size_of(parts.third), seed_of(parts.options)))
}

// The attempts and the seed of a form that checks a property.
fn read_checking(parts: GenerateParts<'_>) -> Result<(u32, u64), DefFault>
    ensures { CheckNumbers (generate_of parts.entry) result }
{
    let allowed = Open {
        seed: true,
        attempts: true,
    };
    refuse_number(option_fault(allowed, parts.options))?;
    Ok((attempts_of(parts.options), seed_of(parts.options)))
}

// ---- the pattern and the host expression

// Adds the names that these bind, with their depths, over these nonterminals.
fn add_bound(
    names: &Names,
    found: &[Occurrence<'_>],
    out: &mut Vec<(Name, u32)>,
) -> Result<(), NoMemory>
    requires { BindNames (bound_among names.now (occurrences_of found.now)) }
    ensures { IfOk result (λ _. out.new.items
        ≡ out.old.items ++ names_bound (bound_among names.now (occurrences_of found.now))) }
{
    for o in found {
        if let Some((depth, d)) = bound_by(names, Position::Query, o) {
            out.push((symbol_name(d)?, depth as u32))?;
        }
    }
    Ok(())
}

// The names that the pattern binds, with their depths, in their order; none, where it would bind one that
// may not be.
fn bound_names(alloc: Global, names: &Names, d: &Datum) -> Result<Vec<(Name, u32)>, NoMemory>
    requires { IsReadable d.now }
    ensures { IfOk result (λ bound. bound.items ≡ names_to_read names.now d.now) }
{
    let mut found = Vec::new(alloc);
    add_pattern(0, d, &mut found)?;
    let mut bound = Vec::new(alloc);
    if first_bad_binder(&found).is_none() {
        add_bound(names, &found, &mut bound)?;
    }
    Ok(bound)
}

// The host expression where the names of a pattern are bound.
fn read_bound(
    alloc: Global,
    scope: &Scope,
    names: &Names,
    pattern: &Datum,
    d: &Datum,
) -> Result<HostExpr, DefFault>
    requires pattern { IsReadable pattern.now }
    requires host { IsReadable d.now }
    ensures { ReadsHost (scope_of scope.now) (names_to_read names.now pattern.now) d.now result }
{
    let bound = bound_names(alloc, names, pattern)?;
    read_host(alloc, scope, &bound, d)
}

// The pattern, and the host expression where its names are bound, over the language at this place.
fn read_over(
    alloc: Global,
    known: &mut Known,
    place: usize,
    parts: GenerateParts<'_>,
) -> Result<(CheckedPat, HostExpr), DefFault>
    requires within { place < length known.old.program.languages.items }
    requires pattern { IsReadable (generate_of parts).pattern }
    requires host { IsReadable (generate_of parts).third }
    requires crossed { AreCrossed (known_of known.old).program.languages
        (known_of known.old).ends }
    requires ends { AreAmong (ends_in (generate_of parts).pattern) (known_of known.old).ends }
    ensures reads { (l : CheckedLang) → l ≡ get_or known.old.program.languages.items place l
        → ReadsBoth (scope_of known.old.scope) (names_of (language_in l))
        (generate_of parts.entry).pattern (generate_of parts.entry).third result }
    ensures same { known_of known.new ≡ known_of known.old }
{
    let names = &known.tables.nonterminals[place];
    let host = read_bound(alloc, &known.scope, names, parts.pattern, parts.third);
    both(read_pattern_at(alloc, known, place, parts.pattern), host)
}

// The same over a language without nonterminals.
fn read_unknown(
    alloc: Global,
    scope: &Scope,
    parts: GenerateParts<'_>,
) -> Result<(CheckedPat, HostExpr), DefFault>
    requires pattern { IsReadable (generate_of parts).pattern }
    requires host { IsReadable (generate_of parts).third }
    ensures { ReadsBoth (scope_of scope.now) [] (generate_of parts.entry).pattern
        (generate_of parts.entry).third result }
{
    let mut empty = empty_language(alloc)?;
    let names = Names::of_language(alloc, &empty)?;
    let host = read_bound(alloc, scope, &names, parts.pattern, parts.third);
    both(read_pattern(alloc, &mut empty, parts.pattern), host)
}

// ---- the forms

/// What a form asks that generates a term, where this is known.
pub fn read_generate(alloc: Global, known: &mut Known, form: &Datum) -> Result<Generating, DefFault>
    requires readable { IsReadable form.now }
    requires crossed { AreCrossed (known_of known.old).program.languages
        (known_of known.old).ends }
    requires ends { AreAmong (ends_in form.now) (known_of known.old).ends }
    ensures asks { GenerateAskedBy (known_of known.old) form.now result }
    ensures same { known_of known.new ≡ known_of known.old }
{
    let parts = check_shape(form, sized_parts(form))?;
    let numbers = read_generating(parts);
    match place_named(known, text(parts.language)) {
        Some(place) => {
            let name = known.program.languages[place].language().name.share()?;
            let pat = read_pattern_at(alloc, known, place, parts.pattern);
            let (pat, numbers) = both(pat, numbers)?;
            Ok(Generating {
                name,
                pat,
                size: numbers.0,
                seed: numbers.1,
            })
        }
        None => {
            let mut empty = empty_language(alloc)?;
            let unknown = named(alloc, DefKind::UnknownLanguage, parts.language)?;
            let pat = read_pattern(alloc, &mut empty, parts.pattern);
            Err(first_fault(unknown, both(pat, numbers)))
        }
    }
}

/// What a form asks that checks a property, where this is known.
pub fn read_check(alloc: Global, known: &mut Known, form: &Datum) -> Result<Checking, DefFault>
    requires readable { IsReadable form.now }
    requires crossed { AreCrossed (known_of known.old).program.languages
        (known_of known.old).ends }
    requires ends { AreAmong (ends_in form.now) (known_of known.old).ends }
    ensures asks { CheckAskedBy (known_of known.old) form.now result }
    ensures same { known_of known.new ≡ known_of known.old }
{
    let parts = check_shape(form, check_parts(form))?;
    let numbers = read_checking(parts);
    match place_named(known, text(parts.language)) {
        Some(place) => {
            let name = known.program.languages[place].language().name.share()?;
            let read = read_over(alloc, known, place, parts);
            let (read, numbers) = both(read, numbers)?;
            Ok(Checking {
                name,
                pat: read.0,
                host: read.1,
                attempts: numbers.0,
                seed: numbers.1,
            })
        }
        None => {
            let unknown = named(alloc, DefKind::UnknownLanguage, parts.language)?;
            let read = read_unknown(alloc, &known.scope, parts);
            Err(first_fault(unknown, both(read, numbers)))
        }
    }
}
