ghost use Rattle.std.specs.Prelude.{◌≡◌, ◌≤◌, IfOk, IfErr, IsErrOf, OnErr, OnOk, string_bytes};
ghost use Rattle.std.specs.Arc.{arc_value};
ghost use Rattle.report_text.specs.Answers.{summary_text};
ghost use Rattle.tri_many.specs.Early.{HasCounted, HasWritten, IsCutShort, summary_lines_of};
ghost use Rattle.tri_many.specs.Answers.{IsRootOf, answer_in};

use crate::counter::Counter;
use crate::output::{Fault, is_stopped, put};
use crate::size::size_for;
use crate::watch::{Watch, WatchedCases};
use chains::Task;
use report_text::{print_stopped, print_summary};
use std::alloc::{AllocError, Global};
use std::sync::{Arc, Wait};
use std::thread::Threads;
use tri_io::{Command, Sink};
use work_pool::{End, pool_run};

/// Counts the chains of a tree's answer, and writes what they come to, where the system was made from
/// `k`. Answers whether a branch was stopped.
pub fn write_summary<
    R: Threads + Wait + Copy + Send + Sync + 'static,
    K: Sink,
    G: Watch + Send + Sync + 'static,
>(
    rt: R,
    alloc: Global,
    command: &Command,
    k: u32,
    watched: Arc<WatchedCases<G>, Global>,
    root: Task,
    sink: &mut K,
) -> Result<bool, Fault>
    requires workers { (1 ≤ command.now.workers) × (command.now.workers ≤ 16) }
    requires root { IsRootOf (arc_value watched) root }
    ensures written { IfOk result
        (HasWritten (summary_text k (answer_in (arc_value watched) command.now.steps))
        (answer_in (arc_value watched) command.now.steps) (K.taken sink.old) (K.taken sink.new)) }
    ensures kept { OnOk result (K.faults sink.new ≡ K.faults sink.old) }
    ensures cut { IfErr result
        (IsCutShort (summary_text k (answer_in (arc_value watched) command.now.steps))
        (K.faults sink.old) (K.faults sink.new) (K.taken sink.old) (K.taken sink.new)) }
{
    let (counter, end) = count_chains(rt, alloc, command, watched, root)?;
    match summary(alloc, k, &counter, &end) {
        Ok(text) => put(sink, &text)?,
        Err(AllocError) => return Err(Fault::Memory),
    }
    Ok(is_stopped(&end))
}

/// Counts the chains of a tree's answer. Answers how the answer ends, too.
fn count_chains<R: Threads + Wait + Copy + Send + Sync + 'static, G: Watch + Send + Sync + 'static>(
    rt: R,
    alloc: Global,
    command: &Command,
    watched: Arc<WatchedCases<G>, Global>,
    root: Task,
) -> Result<(Counter, End), Fault>
    requires workers { (1 ≤ command.now.workers) × (command.now.workers ≤ 16) }
    requires root { IsRootOf (arc_value watched) root }
    ensures counted { IfOk result
        (HasCounted (answer_in (arc_value watched) command.now.steps)) }
    ensures memory { OnErr result (IsErrOf result Fault.Memory) }
{
    let mut counter = Counter {
        chains: 0,
        polys: 0,
    };
    let size = size_for(command);
    match pool_run(rt, alloc, watched, root, size, command.steps, &mut counter) {
        Ok(end) => Ok((counter, end)),
        Err(_) => Err(Fault::Memory),
    }
}

/// The summary of an answer that counts to this, of the system that is made from `k`.
fn summary(alloc: Global, k: u32, counter: &Counter, end: &End) -> Result<String, AllocError>
    ensures { IfOk result (λ text. string_bytes text
        ≡ summary_lines_of k counter.now.chains counter.now.polys end.now) }
{
    let mut text = print_summary(alloc, k, counter.chains, counter.polys)?;
    match end {
        End::Finished => Ok(text),
        End::Stopped(path, why) => {
            let line = print_stopped(alloc, path, *why)?;
            text.push_str(line.as_str())?;
            Ok(text)
        }
    }
}
