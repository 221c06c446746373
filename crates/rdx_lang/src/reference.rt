// What nonterminals go by, compared and shared.
ghost use Rattle.std.specs.Prelude.{◌≡◌, IfOk};
ghost use Rattle.rdx_lang.specs.References.{is_same};

use crate::Ref;
use rdx_term::NoMemory;

impl Ref {
    /// Whether both are the same nonterminal.
    #[inline(always)]
    pub fn same(&self, other: &Ref) -> bool
        ensures { result ≡ is_same self.now other.now }
    {
        match (self, other) {
            (Ref::Nt(a), Ref::Nt(b)) => a.text() == b.text(),
            (Ref::Cross(a, to), Ref::Cross(b, other)) => {
                a.text() == b.text() && to.text() == other.text()
            }
            (Ref::Nt(_), Ref::Cross(_, _)) | (Ref::Cross(_, _), Ref::Nt(_)) => false,
        }
    }

    /// The same nonterminal once more; its names are shared.
    pub fn share(&self) -> Result<Ref, NoMemory>
        ensures { IfOk result (λ x. x ≡ self.now) }
    {
        match self {
            Ref::Nt(name) => Ok(Ref::Nt(name.share()?)),
            Ref::Cross(from, to) => Ok(Ref::Cross(from.share()?, to.share()?)),
        }
    }
}
