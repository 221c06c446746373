// The same templates and host expressions once more, which share their names and terms.
ghost use Rattle.std.specs.Prelude.{◌≡◌, IfOk, map};
ghost use Rattle.rdx_lang.specs.TemplateView.{template_of, part_of, host_of};

use crate::{HostExpr, TItem, Template};
use rdx_term::NoMemory;
use std::alloc::Global;

impl Template {
    /// The same template once more; its names and terms are shared.
    #[cycle(share_template)]
    pub fn share(&self, alloc: Global) -> Result<Template, NoMemory>
        ensures { IfOk result (λ t. template_of t ≡ template_of self.now) }
    {
        match self {
            Template::Lit(term) => Ok(Template::Lit(term.share()?)),
            Template::Var(name, depth) => Ok(Template::Var(name.share()?, *depth)),
            Template::Fill(context, inner) => {
                let context = share_boxed(alloc, context)?;
                Ok(Template::Fill(context, share_boxed(alloc, inner)?))
            }
            Template::Call(name, items) => {
                let items = share_parts(alloc, items)?;
                Ok(Template::Call(name.share()?, items))
            }
            Template::Host(expr) => {
                let expr = expr.share(alloc)?;
                Ok(Template::Host(Box::new(alloc, expr)?))
            }
            Template::Seq(items) => Ok(Template::Seq(share_parts(alloc, items)?)),
        }
    }
}

// The same template once more, in a box of its own.
#[cycle(share_template)]
fn share_boxed(alloc: Global, template: &Template) -> Result<Box<Template>, NoMemory>
    ensures { IfOk result (λ t. template_of t.value ≡ template_of template.now) }
{
    let template = template.share(alloc)?;
    Ok(Box::new(alloc, template)?)
}

impl TItem {
    // The same item once more.
    #[cycle(share_template)]
    fn share(&self, alloc: Global) -> Result<TItem, NoMemory>
        ensures { IfOk result (λ s. part_of s ≡ part_of self.now) }
    {
        match self {
            TItem::One(template) => Ok(TItem::One(template.share(alloc)?)),
            TItem::Many(template) => Ok(TItem::Many(template.share(alloc)?)),
        }
    }
}

// The same items.
#[cycle(share_template)]
fn share_parts(alloc: Global, items: &[TItem]) -> Result<Vec<TItem>, NoMemory>
    ensures { IfOk result (λ shared. map part_of shared.items ≡ map part_of items.now) }
{
    let mut shared = Vec::new(alloc);
    for item in items {
        shared.push(item.share(alloc)?)?;
    }
    Ok(shared)
}

impl HostExpr {
    /// The same host expression once more; its names and terms are shared.
    #[cycle(share_template)]
    pub fn share(&self, alloc: Global) -> Result<HostExpr, NoMemory>
        ensures { IfOk result (λ h. host_of h ≡ host_of self.now) }
    {
        match self {
            HostExpr::Term(template) => Ok(HostExpr::Term(template.share(alloc)?)),
            HostExpr::Int(number) => Ok(HostExpr::Int(*number)),
            HostExpr::Bool(truth) => Ok(HostExpr::Bool(*truth)),
            HostExpr::Call(operation, exprs) => {
                Ok(HostExpr::Call(*operation, share_exprs(alloc, exprs)?))
            }
            HostExpr::And(exprs) => Ok(HostExpr::And(share_exprs(alloc, exprs)?)),
            HostExpr::Or(exprs) => Ok(HostExpr::Or(share_exprs(alloc, exprs)?)),
        }
    }
}

// The same host expressions.
#[cycle(share_template)]
fn share_exprs(alloc: Global, exprs: &[HostExpr]) -> Result<Vec<HostExpr>, NoMemory>
    ensures { IfOk result (λ shared. map host_of shared.items ≡ map host_of exprs.now) }
{
    let mut shared = Vec::new(alloc);
    for expr in exprs {
        shared.push(expr.share(alloc)?)?;
    }
    Ok(shared)
}

// The same templates, in their order.
pub(crate) fn share_templates(
    alloc: Global,
    templates: &[Template],
) -> Result<Vec<Template>, NoMemory>
    ensures { IfOk result (λ shared. map template_of shared.items ≡ map template_of templates.now) }
{
    let mut shared = Vec::new(alloc);
    for template in templates {
        shared.push(template.share(alloc)?)?;
    }
    Ok(shared)
}
