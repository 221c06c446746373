// The options behind a query: keywords, each with a number behind it.
ghost use Rattle.std.specs.Prelude.{◌≡◌, option_map};
ghost use Rattle.rdx_templates.specs.Earliest.{earliest, start};
ghost use Rattle.rdx_forms.specs.Options as model;
ghost use Rattle.rdx_forms.specs.Inside.OptionViews.{kind_of, kinds_of};

use rdx_sexp::{Datum, Form};
use rdx_templates::earliest::earlier;

/// An option.
#[derive(Clone, Copy)]
pub(crate) enum OptionKind {
    /// From which seed words are drawn: `#:seed`.
    Seed,
    /// How often to try: `#:attempts`.
    Attempts,
}

/// The options that may still come.
#[derive(Clone, Copy)]
pub(crate) struct Open {
    pub(crate) seed: bool,
    pub(crate) attempts: bool,
}

// Whether the datum is a keyword.
fn is_keyword(d: &Datum) -> bool
    ensures { result ≡ model.is_keyword d.now }
{
    matches!(&d.form, Form::Key(_))
}

// What the keyword of the option is called.
fn name(kind: OptionKind) -> &'static str
    ensures { result.now ≡ (kind_of kind).name }
{
    match kind {
        OptionKind::Seed => "seed",
        OptionKind::Attempts => "attempts",
    }
}

// Whether the datum is the keyword of the option.
fn is_of(kind: OptionKind, d: &Datum) -> bool
    ensures { result ≡ model.is_keyword_of (kind_of kind).name d.now }
{
    match &d.form {
        Form::Key(text) => text.as_str() == name(kind),
        _ => false,
    }
}

impl Open {
    // The option of a keyword, if that may come.
    fn kind(self, keyword: &Datum) -> Option<OptionKind>
        ensures { option_map kind_of result ≡ model.kind_of_keyword (kinds_of self) keyword.now }
    {
        if self.attempts && is_of(OptionKind::Attempts, keyword) {
            Some(OptionKind::Attempts)
        } else if self.seed && is_of(OptionKind::Seed, keyword) {
            Some(OptionKind::Seed)
        } else {
            None
        }
    }

    // Those that may come behind this keyword.
    fn behind(self, keyword: &Datum) -> Open
        ensures { kinds_of result ≡ model.options_behind keyword.now (kinds_of self) }
    {
        if self.attempts && is_of(OptionKind::Attempts, keyword) {
            Open {
                seed: self.seed,
                attempts: false,
            }
        } else if self.seed && is_of(OptionKind::Seed, keyword) {
            Open {
                seed: false,
                attempts: self.attempts,
            }
        } else {
            self
        }
    }
}

// Whether the number is one for the option.
fn is_within(kind: OptionKind, number: i128) -> bool
    ensures { result ≡ model.is_within (kind_of kind) number }
{
    match kind {
        OptionKind::Seed => (0..=18_446_744_073_709_551_615).contains(&number),
        OptionKind::Attempts => (1..=100_000).contains(&number),
    }
}

// What is at fault in an option with this value: the keyword, where the value is no number, and else the
// value, where it is out of limits.
fn value_fault<'a>(kind: OptionKind, keyword: &'a Datum, value: &'a Datum) -> Option<&'a Datum>
    ensures { option_map (λ d. d.now) result
        ≡ earliest start (model.value_fault (kind_of kind) keyword.now value.now) }
{
    match &value.form {
        Form::Int(number) if is_within(kind, *number) => None,
        Form::Int(_) => Some(value),
        _ => Some(keyword),
    }
}

// What is at fault in a keyword, if it may not come, and the value behind it.
fn pair_fault<'a>(
    kind: Option<OptionKind>,
    keyword: &'a Datum,
    value: &'a Datum,
) -> Option<&'a Datum>
    ensures { option_map (λ d. d.now) result
        ≡ earliest start (model.pair_fault (option_map kind_of kind) keyword.now value.now) }
{
    match kind {
        Some(kind) => value_fault(kind, keyword, value),
        None => Some(keyword),
    }
}

/// Whether each datum at an even place is a keyword.
pub(crate) fn are_options(items: &[Datum]) -> bool
    ensures { result ≡ model.are_pairs items.now }
{
    let mut rest = items;
    while let [keyword, _, more @ ..] = rest {
        if !is_keyword(keyword) {
            return false;
        }
        rest = more;
    }
    match rest {
        [keyword, ..] => is_keyword(keyword),
        [] => true,
    }
}

/// The earliest datum that is at fault among options: a keyword that may not come, or comes again, or has no
/// number behind it; or a number out of limits.
pub(crate) fn option_fault<'a>(allowed: Open, items: &'a [Datum]) -> Option<&'a Datum>
    ensures { option_map (λ d. d.now) result
        ≡ earliest start (model.option_faults (kinds_of allowed) items.now) }
{
    let mut left = allowed;
    let mut rest = items;
    let mut least = None;
    while let [keyword, value, more @ ..] = rest {
        least = earlier(least, pair_fault(left.kind(keyword), keyword, value));
        left = left.behind(keyword);
        rest = more;
    }
    earlier(least, rest.first())
}

/// The number of an option, if it stands there with one that is not negative.
pub(crate) fn option_value(kind: OptionKind, items: &[Datum]) -> Option<u64>
    ensures { result ≡ model.option_number (kind_of kind) items.now }
{
    let mut rest = items;
    while let [keyword, value, more @ ..] = rest {
        if is_of(kind, keyword) {
            return number_in(value);
        }
        rest = more;
    }
    None
}

/// The number that the datum is, if it is one from 0 below 2^64.
pub(crate) fn number_in(d: &Datum) -> Option<u64>
    ensures { result ≡ model.number d.now }
{
    match &d.form {
        Form::Int(number) => u64::try_from(*number).ok(),
        _ => None,
    }
}
