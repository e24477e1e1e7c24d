ghost use Rattle.std.specs.Prelude.{◌≡◌, false, IfOk};
ghost use Rattle.split_paths.specs.declared.splitter.Step.TheVariants.{Emit};
ghost use Rattle.tree_laws.specs.Steps.{emitted_then};
ghost use Rattle.finish_rules.specs.Identities.{certificate_of};
ghost use Rattle.finish_rules.specs.Turns.{turns_below};
ghost use Rattle.regularise.specs.Answers.{as_step};
ghost use Rattle.regularise.specs.Identities.{HasIdentity};

use crate::answer::{Regular, gives_way_to};
use crate::identity::{IdentitySoFar, Turn};
use crate::turn::turn;
use certificates::Certificate;
use chains::{Chain, NonZero};
use mono_words::VARS;
use pseudo_division::Row;
use sparse_poly::Work;
use std::alloc::{AllocError, Global};

/// The turns of a reduced initial at the main variables below `v`, the greatest first.
pub fn turns(
    alloc: Global,
    w: &Work,
    chain: &Chain,
    nonzero: &NonZero,
    v: usize,
    row: Row,
) -> Result<Regular, AllocError>
    requires { HasIdentity w.now.field v chain.now row }
    ensures { IfOk result (λ r. as_step r ≡ emitted_then
        (turns_below w.now.field VARS w.now.width chain.now nonzero.now v
        (record { row = row; composed = false })) (λ f. Emit (certificate_of v f))) }
{
    let mut sofar = IdentitySoFar {
        row,
        composed: false,
    };
    let mut u = v;
    while u > 0 {
        u -= 1;
        match turn(alloc, w, chain, nonzero, u, sofar)? {
            Turn::Further(next) => sofar = next,
            Turn::Vanishing(list) => return Ok(gives_way_to(list)),
            Turn::TooWide => return Ok(Regular::TooWide),
        }
    }
    Ok(Regular::Certified(Certificate::of_row(alloc, v, sofar.row)))
}
