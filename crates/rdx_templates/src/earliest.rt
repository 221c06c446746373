// Which of two data stands earlier in the file.
ghost use Rattle.std.specs.Prelude.{◌≡◌, option_map};
ghost use Rattle.rdx_templates.specs.Earliest as model;

use rdx_base::Place;
use rdx_sexp::Datum;

/// Whether the first place comes before the second.
pub fn is_before(one: Place, other: Place) -> bool
    ensures { result ≡ model.is_before one other }
{
    one.line < other.line || (one.line == other.line && one.column < other.column)
}

/// The one of two data that begins earlier; the first, where both begin at one place.
pub fn earlier<'a>(one: Option<&'a Datum>, other: Option<&'a Datum>) -> Option<&'a Datum>
    ensures { option_map (λ d. d.now) result
        ≡ model.lesser model.start (option_map (λ d. d.now) one.entry)
        (option_map (λ d. d.now) other.entry) }
{
    let Some(first) = one else {
        return other;
    };
    match other {
        Some(second) if is_before(second.span.start, first.span.start) => other,
        _ => one,
    }
}
