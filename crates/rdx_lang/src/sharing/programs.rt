// The same parts of rules once more, which share their names and terms.
ghost use Rattle.std.specs.Prelude.{◌≡◌, IfOk, option_map};
ghost use Rattle.std.specs.Rc.{rc_str_bytes};
ghost use Rattle.rdx_lang.specs.Checked.{pattern_in};
ghost use Rattle.rdx_lang.specs.ProgramView.{premise_of, extra_of, extras_of, rule_of, relation_of};

use super::templates::share_templates;
use crate::{CheckedPat, Extra, Premise, Relation, Rule};
use rdx_term::NoMemory;
use std::alloc::Global;
use std::rc::RcStr;

impl Premise {
    /// The same premise once more; its names and terms are shared.
    pub fn share(&self, alloc: Global) -> Result<Premise, NoMemory>
        ensures { IfOk result (λ q. premise_of q ≡ premise_of self.now) }
    {
        let judgement = self.judgement.share()?;
        let ins = share_templates(alloc, &self.ins)?;
        let outs = self.outs.share(alloc)?;
        Ok(Premise {
            judgement,
            ins,
            outs,
        })
    }
}

impl Extra {
    /// The same extra once more; its names and terms are shared.
    pub fn share(&self, alloc: Global) -> Result<Extra, NoMemory>
        ensures { IfOk result (λ e. extra_of e ≡ extra_of self.now) }
    {
        match self {
            Extra::Where(pat, template) => {
                let template = template.share(alloc)?;
                Ok(Extra::Where(pat.share(alloc)?, template))
            }
            Extra::Side(expr) => Ok(Extra::Side(expr.share(alloc)?)),
            Extra::Holds(premise) => Ok(Extra::Holds(premise.share(alloc)?)),
            Extra::Fresh(name) => Ok(Extra::Fresh(name.share()?)),
        }
    }
}

impl Rule {
    /// The same name once more, where the rule has one; its text is shared.
    pub fn share_name(&self) -> Result<Option<RcStr>, NoMemory>
        ensures { IfOk result (λ name. option_map rc_str_bytes name ≡ (rule_of self.now).name) }
    {
        match &self.name {
            Some(text) => Ok(Some(text.clone()?)),
            None => Ok(None),
        }
    }

    /// The same extras once more; their names and terms are shared.
    pub fn share_extras(&self, alloc: Global) -> Result<Vec<Extra>, NoMemory>
        ensures { IfOk result (λ extras. extras_of extras.items ≡ (rule_of self.now).extras) }
    {
        let mut shared = Vec::new(alloc);
        for extra in &self.extras {
            shared.push(extra.share(alloc)?)?;
        }
        Ok(shared)
    }
}

impl Relation {
    /// The same domain once more, where the relation has one; its names and terms are shared.
    pub fn share_domain(&self, alloc: Global) -> Result<Option<CheckedPat>, NoMemory>
        ensures { IfOk result (λ domain. option_map pattern_in domain
            ≡ (relation_of self.now).domain) }
    {
        match &self.domain {
            Some(pat) => Ok(Some(pat.share(alloc)?)),
            None => Ok(None),
        }
    }
}
