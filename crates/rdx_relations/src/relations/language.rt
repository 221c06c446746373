// Forms over a language that no form defines, in whatever file.
ghost use Rattle.std.specs.Prelude.{◌≡◌, ℕ, List, Some, IfOk, option_map};
ghost use Rattle.rdx_parts.specs.StandRefusal.{stands_refusal};
ghost use Rattle.rdx_parts.specs.Stands.{Stand};
ghost use Rattle.rdx_patterns.specs.Refusal.{refusal_of};
ghost use Rattle.rdx_relations.specs.Inside.Misshaped as inside;
ghost use Rattle.rdx_relations.specs.LanguageRefusal.{refusal_over};
ghost use Rattle.rdx_templates.specs.Scope.{Scope};

use rdx_patterns::refusal::named;
use rdx_patterns::shape::is_word;
use rdx_patterns::{DefKind, DefRefusal};
use rdx_sexp::Datum;
use rdx_term::NoMemory;
use std::alloc::Global;

// Whether the refusal is that of what has not its shape.
fn is_misshaped(refusal: &Option<DefRefusal>) -> bool
    ensures { result ≡ inside.is_misshaped (option_map refusal_of refusal.now) }
{
    match refusal {
        Some(refusal) => matches!(refusal.kind, DefKind::Shape),
        None => false,
    }
}

/// The refusal of a form over a language of this name, where what stands in it is refused so: `hole`
/// names no language, S2, but where something has not its shape.
pub fn refuse_over(
    alloc: Global,
    language: &Datum,
    refusal: Option<DefRefusal>,
) -> Result<Option<DefRefusal>, NoMemory>
    ensures { IfOk result (λ r. (S : Scope) (ns : List (List ℕ)) (ss : List Stand)
        → option_map refusal_of refusal ≡ stands_refusal S ns ss
        → option_map refusal_of r ≡ refusal_over S ns (Some language.now) ss) }
{
    if !is_word(language, "hole") || is_misshaped(&refusal) {
        return Ok(refusal);
    }
    Ok(Some(named(alloc, DefKind::UnknownLanguage, language)?))
}
