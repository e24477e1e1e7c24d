ghost use Rattle.std.specs.Prelude.{◌≡◌, IfOk};
ghost use Rattle.split_paths.specs.Answer.{answer_of};
ghost use Rattle.split_paths.specs.Tree.{events_of};
ghost use Rattle.system_text.specs.Laws.{IsSystem};
ghost use Rattle.case_tree.specs.Systems.{IsTaskOf, step_of};
ghost use Rattle.tri_alone.specs.Alone.{walk_for};

use case_tree::Cases;
use mono_words::VARS;
use solver_reports::{Walked, count, walk};
use sparse_poly::System;
use split_paths::Offer;
use std::alloc::{AllocError, Global};

/// What is written of the answer to a system: its report, or its summary where the system was made
/// from a number.
pub fn walk_cases(
    alloc: Global,
    made: Option<u32>,
    cases: &Cases,
    root: Offer<Cases>,
) -> Result<Walked, AllocError>
    requires lawful { IsSystem VARS cases.now.system }
    requires task { IsTaskOf cases.now root.task }
    ensures { IfOk result (λ walked. walked
        ≡ walk_for made cases.now.system (answer_of (events_of (step_of cases.now) root))) }
{
    match made {
        Some(k) => count(alloc, cases, root)?.summary(alloc, k),
        None => {
            let System { names, nonzero, .. } = cases.system();
            walk(alloc, names, nonzero, cases, root)
        }
    }
}
