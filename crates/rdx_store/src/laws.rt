//! What holds of ids. The function does nothing, and its contract is the laws.
ghost use Rattle.rdx_store.specs.Laws.{StepsExtend, IdsKeepTheirTerms, IdsTellTermsApart};

/// What one step keeps and then another, both keep together; an id keeps its term; and two ids, of
/// which one may be older, are equal exactly where their terms are equal, marks included.
pub fn ids()
    ensures steps { StepsExtend }
    ensures kept { IdsKeepTheirTerms }
    ensures equal { IdsTellTermsApart }
{}
