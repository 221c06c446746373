// The forms of a file.
ghost use Rattle.rdx_sexp.specs.Size.{AreFileData};
ghost use Rattle.std.specs.Prelude.{◌≡◌, IfOk, IfErr};
ghost use Rattle.rdx_query.specs.File.{IsFile};
ghost use Rattle.rdx_forms.specs.BindingParts.{file_forms};
ghost use Rattle.rdx_answer.specs.Views.{AllNamesKnown, bound_in, program_in, queries_of};
ghost use Rattle.rdx_query.specs.Views.{IsFileFault};

use crate::forms::read_form;
use rdx_answer::CheckedFile;
use rdx_facts::with_facts;
use rdx_forms::nothing_known;
use rdx_patterns::DefFault;
use rdx_sexp::Datum;
use std::alloc::Global;

/// What the forms of a file mean, or the refusal of the first form that is refused.
pub fn check_file(alloc: Global, forms: &[Datum]) -> Result<CheckedFile, DefFault>
    requires { AreFileData forms.now }
    ensures accepted { IfOk result (λ f. IsFile forms.now (program_in f) (queries_of f)) }
    ensures forms { IfOk result (λ f. bound_in f ≡ file_forms forms.now) }
    ensures refused { IfErr result (IsFileFault forms.now) }
    ensures named { IfOk result (λ f. AllNamesKnown (program_in f) (queries_of f)) }
{
    let mut known = nothing_known(alloc, forms)?;
    let mut queries = Vec::new(alloc);
    for form in forms {
        read_form(alloc, &mut known, &mut queries, form)?;
    }
    let program = with_facts(alloc, known.program)?;
    Ok(CheckedFile {
        program,
        queries,
        forms: known.forms,
    })
}
