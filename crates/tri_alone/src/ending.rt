ghost use Rattle.std.specs.Prelude.{◌≡◌, cond, IfOk};
ghost use Rattle.system_text.specs.Laws.{IsSystem};
ghost use Rattle.solver_rules.specs.Solver.{ending_of_system};

use crate::walks::walk_cases;
use case_tree::Cases;
use mono_words::VARS;
use report_text::Status;
use solver_inputs::Ending;
use split_paths::{Offer, Path};
use std::alloc::{AllocError, Global};
use tri_io::Command;

/// How a run with this command ends on the cases of its system: with the report of their tree, or
/// with its summary.
pub fn ending_of_cases(
    alloc: Global,
    command: &Command,
    cases: &Cases,
) -> Result<Ending, AllocError>
    requires lawful { IsSystem VARS cases.now.system }
    requires width { cases.now.width ≡ command.now.width }
    ensures { IfOk result (λ e. e ≡ ending_of_system VARS command.now cases.now.system) }
{
    let root = Offer {
        path: Path::root(alloc),
        steps: command.steps,
        task: cases.root(alloc)?,
    };
    let walked = walk_cases(alloc, command.made, cases, root)?;
    Ok(Ending {
        status: status_of(walked.stopped),
        text: walked.text,
    })
}

/// The status of an answer that was stopped or not.
fn status_of(stopped: bool) -> Status
    ensures { result ≡ cond stopped Status.Stopped Status.Chains }
{
    if stopped {
        Status::Stopped
    } else {
        Status::Chains
    }
}
