// The names of metafunctions.
ghost use Rattle.std.specs.Prelude.{◌≡◌, None, Some, option_map};
ghost use Rattle.rdx_defs.specs.MetafunctionForms.{MetafunctionForm, metafunction_form, function_in};

use crate::metafunctions::forms::{function_in, metafunction_form};
use rdx_sexp::Datum;

/// The name that a `define-metafunction` form gives its metafunction, at its first place, where the
/// form has its parts.
pub fn metafunction_name(form: &Datum) -> Option<&Datum>
    ensures named { (m : MetafunctionForm) → metafunction_form form.now ≡ Some m
        → option_map (λ d. d.now) result ≡ function_in m }
    ensures unnamed { metafunction_form form.now ≡ None
        → option_map (λ d. d.now) result ≡ None }
{
    function_in(metafunction_form(form)?)
}
