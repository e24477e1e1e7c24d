ghost use Rattle.std.specs.Prelude.{◌≡◌, ◌≤◌, map, IfOk, IfErr, OnOk, string_bytes};
ghost use Rattle.std.specs.Arc.{arc_value};
ghost use Rattle.std.specs.Io.KnownBytes.{Appends};
ghost use Rattle.tri_many.specs.Early.{HasPrinted, HasWritten, IsCutShort, end_line_of};
ghost use Rattle.tri_many.specs.Answers.{IsRootOf, answer_in, chains_text, ending_text};

use crate::output::{Fault, is_stopped, put};
use crate::printer::Printer;
use crate::watch::{Watch, WatchedCases};
use chains::Task;
use report_text::{print_end, print_stopped};
use solver_reports::nonzero_lines;
use sparse_poly::{Names, System};
use std::alloc::{AllocError, Global};
use std::sync::{Arc, Wait};
use std::thread::Threads;
use tri_io::{Command, Sink};
use work_pool::End;

/// Writes the chains of a tree's answer as they come, behind the polynomials that must not vanish.
/// Answers whether a branch was stopped.
pub fn write_chains<
    R: Threads + Wait + Copy + Send + Sync + 'static,
    K: Sink,
    G: Watch + Send + Sync + 'static,
>(
    rt: R,
    alloc: Global,
    command: &Command,
    watched: Arc<WatchedCases<G>, Global>,
    root: Task,
    sink: &mut K,
) -> Result<bool, Fault>
    requires workers { (1 ≤ command.now.workers) × (command.now.workers ≤ 16) }
    requires root { IsRootOf (arc_value watched) root }
    ensures written { IfOk result (HasWritten (chains_text (arc_value watched) command.now.steps)
        (answer_in (arc_value watched) command.now.steps) (K.taken sink.old) (K.taken sink.new)) }
    ensures kept { OnOk result (K.faults sink.new ≡ K.faults sink.old) }
    ensures cut { IfErr result (IsCutShort (chains_text (arc_value watched) command.now.steps)
        (K.faults sink.old) (K.faults sink.new) (K.taken sink.old) (K.taken sink.new)) }
{
    let Ok(held) = Arc::try_clone(&watched) else {
        return Err(Fault::Memory);
    };
    let System { names, nonzero, .. } = held.cases.system();
    let Ok(front) = nonzero_lines(alloc, names, nonzero) else {
        return Err(Fault::Memory);
    };
    put(sink, &front)?;
    let (count, end) = print_chains(rt, alloc, command, watched, root, names, sink)?;
    write_end(alloc, count, &end, sink)?;
    Ok(is_stopped(&end))
}

/// Writes the chains of a tree's answer as they come. Answers how many there are, and how the answer
/// ends.
fn print_chains<
    R: Threads + Wait + Copy + Send + Sync + 'static,
    K: Sink,
    G: Watch + Send + Sync + 'static,
>(
    rt: R,
    alloc: Global,
    command: &Command,
    watched: Arc<WatchedCases<G>, Global>,
    root: Task,
    names: &Names,
    sink: &mut K,
) -> Result<(u64, End), Fault>
    requires workers { (1 ≤ command.now.workers) × (command.now.workers ≤ 16) }
    requires root { IsRootOf (arc_value watched) root }
    requires names { map string_bytes names.now ≡ (arc_value watched).system.names }
    ensures printed { IfOk result (HasPrinted (arc_value watched).system.names
        (answer_in (arc_value watched) command.now.steps) (K.taken sink.old) (K.taken sink.new)) }
    ensures kept { OnOk result (K.faults sink.new ≡ K.faults sink.old) }
    ensures cut { IfErr result (IsCutShort (ending_text (arc_value watched).system.names
        (answer_in (arc_value watched) command.now.steps))
        (K.faults sink.old) (K.faults sink.new) (K.taken sink.old) (K.taken sink.new)) }
{
    let mut printer = Printer::new(alloc, names, sink);
    match printer.take_all(rt, command, watched, root) {
        Ok(end) => Ok((printer.count(), end)),
        Err(fault) => Err(fault),
    }
}

/// Writes the last line of an answer with so many chains.
fn write_end<K: Sink>(alloc: Global, count: u64, end: &End, sink: &mut K) -> Result<(), Fault>
    ensures whole { OnOk result
        (Appends (K.taken sink.old) (K.taken sink.new) (end_line_of count end.now)) }
    ensures kept { OnOk result (K.faults sink.new ≡ K.faults sink.old) }
    ensures cut { IfErr result (IsCutShort (end_line_of count end.now)
        (K.faults sink.old) (K.faults sink.new) (K.taken sink.old) (K.taken sink.new)) }
{
    match last_line(alloc, count, end) {
        Ok(line) => put(sink, &line),
        Err(AllocError) => Err(Fault::Memory),
    }
}

/// The last line of an answer with so many chains.
fn last_line(alloc: Global, count: u64, end: &End) -> Result<String, AllocError>
    ensures { IfOk result (λ line. string_bytes line ≡ end_line_of count end.now) }
{
    match end {
        End::Finished => print_end(alloc, count),
        End::Stopped(path, why) => print_stopped(alloc, path, *why),
    }
}
