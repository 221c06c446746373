// The earliest datum without its shape in templates and host expressions.
ghost use Rattle.std.specs.Prelude.{◌≡◌, drop, option_map};
ghost use Rattle.rdx_sexp.specs.Sexp.{sexps};
ghost use Rattle.rdx_patterns.specs.Occurrences.{keys};
ghost use Rattle.rdx_patterns.specs.PatternChecks.{keyword_faults};
ghost use Rattle.rdx_templates.specs.Earliest.{earliest, start};
ghost use Rattle.rdx_templates.specs.TemplateShapes as model;

use crate::earliest::earlier;
use crate::templates::heads::{is_evaluating, is_headed};
use crate::templates::host_heads::{HostHead, host_head};
use rdx_sexp::{Datum, Form};

// The earliest keyword in a datum.
#[tactic(auto, using(std::proofs::lemmas::Grind::common_steps, crate::proofs::EarliestPlaces::lesser_assoc, crate::proofs::EarliestPlaces::lesser_none, crate::proofs::EarliestPlaces::earliest_append))]
fn key_in(d: &Datum) -> Option<&Datum>
    ensures { option_map (λ d. d.now) result ≡ earliest start (keyword_faults (keys d.now)) }
{
    match &d.form {
        Form::Int(_) | Form::Bool(_) | Form::Str(_) | Form::Sym(_) => None,
        Form::Key(_) => Some(d),
        Form::List(items) => {
            let mut found = None;
            for item in items {
                found = earlier(found, key_in(item));
            }
            found
        }
    }
}

/// The earliest datum in a template that has not its shape.
#[cycle(shapes)]
pub fn shape_in_template(d: &Datum) -> Option<&Datum>
    ensures { option_map (λ d. d.now) result ≡ earliest start (model.template_shapes d.now) }
{
    match &d.form {
        Form::Int(_) | Form::Bool(_) | Form::Str(_) | Form::Sym(_) => None,
        Form::Key(_) => Some(d),
        Form::List(items) => {
            if is_evaluating(items) {
                shape_in_hosts(items)
            } else if is_headed(items, "unquote-splicing") {
                key_in(d)
            } else {
                shape_in_templates(0, items)
            }
        }
    }
}

// The earliest one in the templates from this one on.
#[tactic(auto, using(std::proofs::lemmas::Grind::common_steps, crate::proofs::EarliestPlaces::lesser_assoc, crate::proofs::EarliestPlaces::lesser_none, crate::proofs::EarliestPlaces::earliest_append))]
#[cycle(shapes)]
fn shape_in_templates(from: usize, items: &[Datum]) -> Option<&Datum>
    ensures { option_map (λ d. d.now) result
        ≡ earliest start (model.shapes_among (sexps (drop from items.now))) }
{
    let mut found = None;
    for i in from..items.len() {
        found = earlier(found, shape_in_template(&items[i]));
    }
    found
}

/// The earliest datum in a host expression that has not its shape.
#[cycle(shapes)]
pub fn shape_in_host(d: &Datum) -> Option<&Datum>
    ensures { option_map (λ d. d.now) result ≡ earliest start (model.host_shapes d.now) }
{
    match &d.form {
        Form::Int(_) | Form::Bool(_) | Form::Str(_) | Form::Sym(_) | Form::Key(_) => None,
        Form::List(items) => match host_head(items) {
            HostHead::Quoting => shape_in_templates(1, items),
            HostHead::Applying(_) | HostHead::AllOf | HostHead::SomeOf => shape_in_hosts(items),
            HostHead::Miscounted => Some(d),
            HostHead::Foreign => None,
        },
    }
}

// The earliest one in the host expressions behind a head.
#[tactic(auto, using(std::proofs::lemmas::Grind::common_steps, crate::proofs::EarliestPlaces::lesser_assoc, crate::proofs::EarliestPlaces::lesser_none, crate::proofs::EarliestPlaces::earliest_append))]
#[cycle(shapes)]
fn shape_in_hosts(items: &[Datum]) -> Option<&Datum>
    ensures { option_map (λ d. d.now) result
        ≡ earliest start (model.host_shapes_behind (sexps items.now)) }
{
    let mut found = None;
    for i in 1..items.len() {
        found = earlier(found, shape_in_host(&items[i]));
    }
    found
}
