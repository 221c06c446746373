// The names that patterns are built from.
ghost use Rattle.std.specs.Prelude.{◌≡◌};
ghost use Rattle.rdx_patterns.specs.Kinds as model;

use crate::patterns::names::Names;
use rdx_lang::Kind;

/// What a built-in name stands for.
pub fn kind(text: &str) -> Option<Kind>
    ensures { result ≡ model.kind_of text.now }
{
    match text {
        "any" => Some(Kind::Any),
        "number" => Some(Kind::Number),
        "natural" => Some(Kind::Natural),
        "integer" => Some(Kind::Integer),
        "real" => Some(Kind::Real),
        "string" => Some(Kind::Text),
        "boolean" => Some(Kind::Boolean),
        "variable" => Some(Kind::Variable),
        "variable-not-otherwise-mentioned" => Some(Kind::Unmentioned),
        _ => None,
    }
}

/// Whether this is a built-in name or one of the nonterminals.
pub(crate) fn is_base(names: &Names, text: &str) -> bool
    ensures { result ≡ model.is_base names.now text.now }
{
    kind(text).is_some() || names.find(text).is_some()
}
