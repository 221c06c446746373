// The file of the workload.
ghost use Rattle.std.specs.Prelude.{◌≡◌, ◌≤◌, ◌++◌, ℕ, IfOk, OnOk};
ghost use Rattle.rdx_answer.specs.Workload as model;

use crate::texts::write_number;
use rdx_term::NoMemory;
use std::alloc::Global;

// What is tested.
const DEFINITIONS: &str = "(define-language W (e (e e) (+ e e) x v) (v number (λ (x) e))
  (x variable-not-otherwise-mentioned) (E hole (E e) (v E) (+ E e) (+ v E)))
(define-metafunction W
  [(subst x v x) v]
  [(subst x v (λ (x) e)) (λ (x) e)]
  [(subst x_1 v (λ (x_2) e)) (λ (x_2) (subst x_1 v e))]
  [(subst x v (+ e_1 e_2)) (+ (subst x v e_1) (subst x v e_2))]
  [(subst x v (e_1 e_2)) ((subst x v e_1) (subst x v e_2))]
  [(subst x v e) e])
(define red (reduction-relation W
  (--> (in-hole E (+ number_1 number_2))
       (in-hole E ,(+ (term number_1) (term number_2))) add)
  (--> (in-hole E ((λ (x) e) v)) (in-hole E (subst x v e)) beta)))
";

// The test of this number.
fn write_test(k: usize, out: &mut Vec<u8>) -> Result<(), NoMemory>
    requires { k ≤ 2000 }
    ensures { OnOk result (out.new.items ≡ out.old.items ++ model.test k) }
{
    let one = 7 * k % 1000;
    let other = 13 * k % 1000;
    out.extend_from_slice("(test-->> red (term ((λ (y) (+ y (+ ".as_bytes())?;
    write_number(k, out)?;
    out.push(b' ')?;
    write_number(one, out)?;
    out.extend_from_slice(b"))) ")?;
    write_number(other, out)?;
    out.extend_from_slice(b")) (term ")?;
    write_number(k + one + other, out)?;
    out.extend_from_slice(b"))\n")?;
    Ok(())
}

/// The file with this number of tests, 2,000 at most. Each adds up three numbers, call by value.
pub fn workload_text(alloc: Global, n: u32) -> Result<Vec<u8>, NoMemory>
    requires some { 1 ≤ n }
    requires few { n ≤ 2000 }
    ensures { IfOk result (λ text. text.items ≡ model.workload n) }
{
    let mut out = Vec::new(alloc);
    out.extend_from_slice(DEFINITIONS.as_bytes())?;
    for k in 0..n as usize {
        write_test(k + 1, &mut out)?;
    }
    out.extend_from_slice(b"(test-results)\n")?;
    Ok(out)
}
