ghost use Rattle.std.specs.Prelude.{◌≡◌, ◌≢◌, ◌≤◌, IfOk, IfErr, OnOk};
ghost use Rattle.std.specs.Arc.{arc_value};
ghost use Rattle.mono_words.specs.declared.mono.TheConstants.{VARS};
ghost use Rattle.tri_io.specs.Faults.{Rose};
ghost use Rattle.system_text.specs.Laws.{IsSystem};
ghost use Rattle.solver_rules.specs.Solver.{ending_of_system, written_text};
ghost use Rattle.tri_many.specs.Answers.{IsRootOf, answer_in};
ghost use Rattle.tri_many.specs.Early.{HasWritten, IsCutShort, WritesEarly, status_of};

use crate::output::Fault;
use crate::report::write_chains;
use crate::summary::write_summary;
use crate::watch::{Watch, WatchedCases};
use case_tree::Cases;
use chains::Task;
use report_text::Status;
use std::alloc::Global;
use std::sync::{Arc, Wait};
use std::thread::Threads;
use tri_io::{Command, Sink};

/// Walks the tree of a system's cases and writes its answer: its chains as they come, or its summary
/// where the system was made from a number.
pub fn write_answer<
    R: Threads + Wait + Copy + Send + Sync + 'static,
    K: Sink,
    G: Watch + Send + Sync + 'static,
>(
    rt: R,
    alloc: Global,
    command: &Command,
    cases: Cases,
    watch: Arc<G, Global>,
    sink: &mut K,
) -> Status
    requires workers { (1 ≤ command.now.workers) × (command.now.workers ≤ 16) }
    requires lawful { IsSystem VARS cases.system }
    requires width { cases.width ≡ command.now.width }
    ensures writes { WritesEarly (ending_of_system VARS command.now cases.system)
        (Rose (K.faults sink.old) (K.faults sink.new))
        (K.taken sink.old) (K.taken sink.new) result }
    ensures answered { K.faults sink.new ≢ K.faults sink.old → result ≡ Status.WriteFault }
{
    let Ok(root) = cases.root(alloc) else {
        return Status::OutOfMemory;
    };
    let Ok(watched) = Arc::new(alloc, WatchedCases { cases, watch }) else {
        return Status::OutOfMemory;
    };
    status_of(write_text(rt, alloc, command, watched, root, sink))
}

/// Writes the chains of a tree's answer, or their summary where the system was made. Answers whether a
/// branch was stopped.
fn write_text<
    R: Threads + Wait + Copy + Send + Sync + 'static,
    K: Sink,
    G: Watch + Send + Sync + 'static,
>(
    rt: R,
    alloc: Global,
    command: &Command,
    watched: Arc<WatchedCases<G>, Global>,
    root: Task,
    sink: &mut K,
) -> Result<bool, Fault>
    requires workers { (1 ≤ command.now.workers) × (command.now.workers ≤ 16) }
    requires root { IsRootOf (arc_value watched) root }
    ensures written { IfOk result (HasWritten
        (written_text command.now.made (arc_value watched).system
        (answer_in (arc_value watched) command.now.steps))
        (answer_in (arc_value watched) command.now.steps) (K.taken sink.old) (K.taken sink.new)) }
    ensures kept { OnOk result (K.faults sink.new ≡ K.faults sink.old) }
    ensures cut { IfErr result (IsCutShort
        (written_text command.now.made (arc_value watched).system
        (answer_in (arc_value watched) command.now.steps))
        (K.faults sink.old) (K.faults sink.new) (K.taken sink.old) (K.taken sink.new)) }
{
    match command.made {
        None => write_chains(rt, alloc, command, watched, root, sink),
        Some(k) => write_summary(rt, alloc, command, k, watched, root, sink),
    }
}

/// The status of a run whose answer was written to its end, which is at a branch that was stopped or
/// not; or that was cut short by a fault.
fn status_of(answered: Result<bool, Fault>) -> Status
    ensures { result ≡ status_of answered }
{
    match answered {
        Ok(false) => Status::Chains,
        Ok(true) => Status::Stopped,
        Err(Fault::Write) => Status::WriteFault,
        Err(Fault::Memory) => Status::OutOfMemory,
    }
}
