ghost use Rattle.std.specs.Prelude.{◌≡◌, ◌≤◌, map, IfOk, IfErr, OnOk, string_bytes};
ghost use Rattle.std.specs.Arc.{arc_value};
ghost use Rattle.tri_many.specs.Answers.{IsRootOf, answer_in, ending_text};
ghost use Rattle.tri_many.specs.Early.{HasPrinted, IsCutShort};

use crate::output::Fault;
use crate::size::size_for;
use crate::watch::{Watch, WatchedCases};
use certificates::Leaf;
use chains::Task;
use report_text::print_chain;
use sparse_poly::Names;
use split_paths::Path;
use std::alloc::Global;
use std::sync::{Arc, Wait};
use std::thread::Threads;
use tri_io::{Command, Sink, write_all};
use work_pool::{End, PoolError, Taker, pool_run};

/// Writes each chain that it takes, and counts them.
#[derive(Drop)]
pub struct Printer<'a, K: Sink> {
    alloc: Global,
    names: &'a Names,
    sink: &'a mut K,
    count: u64,
}

impl<'a, K: Sink> Printer<'a, K> {
    /// Nothing was taken yet.
    pub fn new(alloc: Global, names: &'a Names, sink: &'a mut K) -> Printer<'a, K>
        ensures names { result.names.now ≡ names.now }
        ensures same { result.sink.ghost_name ≡ sink.entry.ghost_name }
        ensures now { result.sink.now ≡ sink.old }
        ensures count { result.count ≡ 0 }
    {
        Printer {
            alloc,
            names,
            sink,
            count: 0,
        }
    }

    /// How many chains were taken.
    pub fn count(&self) -> u64
        ensures { result ≡ self.now.count }
    {
        self.count
    }

    /// Takes the chains of a tree's answer as they come. Answers how the answer ends.
    pub fn take_all<
        R: Threads + Wait + Copy + Send + Sync + 'static,
        G: Watch + Send + Sync + 'static,
    >(
        &mut self,
        rt: R,
        command: &Command,
        watched: Arc<WatchedCases<G>, Global>,
        root: Task,
    ) -> Result<End, Fault>
        requires workers { (1 ≤ command.now.workers) × (command.now.workers ≤ 16) }
        requires root { IsRootOf (arc_value watched) root }
        requires names { map string_bytes self.old.names.now ≡ (arc_value watched).system.names }
        requires none { self.old.count ≡ 0 }
        ensures same { self.new.sink.ghost_name ≡ self.old.sink.ghost_name }
        ensures printed { IfOk result (λ end. HasPrinted (arc_value watched).system.names
            (answer_in (arc_value watched) command.now.steps)
            (K.taken self.old.sink.now) (K.taken self.new.sink.now) (self.new.count, end)) }
        ensures kept { OnOk result (K.faults self.new.sink.now ≡ K.faults self.old.sink.now) }
        ensures cut { IfErr result (IsCutShort (ending_text (arc_value watched).system.names
            (answer_in (arc_value watched) command.now.steps))
            (K.faults self.old.sink.now) (K.faults self.new.sink.now)
            (K.taken self.old.sink.now) (K.taken self.new.sink.now)) }
    {
        let size = size_for(command);
        match pool_run(rt, self.alloc, watched, root, size, command.steps, self) {
            Ok(end) => Ok(end),
            Err(PoolError::Memory) => Err(Fault::Memory),
            Err(PoolError::Each(fault)) => Err(fault),
        }
    }
}

impl<'a, K: Sink> Taker<Leaf> for Printer<'a, K> {
    type Fault = Fault;

    ghost use Rattle.std.specs.Prelude.{◌≡◌, length, map, string_bytes};
    ghost use Rattle.solver_reports.specs.Growth.{IsPrintableLeaf};
    ghost use Rattle.tri_many.specs.Printing.{Prints, FailsToPrint};

    ghost takes = { λ before path leaf after.
        Prints K.taken K.faults (map string_bytes before.names.now) (path, leaf)
        before.count after.count before.sink.now after.sink.now
        × (after.names ≡ before.names) × (after.sink.ghost_name ≡ before.sink.ghost_name) };

    ghost fails = { λ before path leaf fault after.
        FailsToPrint K.taken K.faults (map string_bytes before.names.now) (path, leaf) fault
        before.sink.now after.sink.now
        × (after.sink.ghost_name ≡ before.sink.ghost_name) };

    ghost may = { λ printer leaf. IsPrintableLeaf (length printer.names.now) leaf };

    fn take(&mut self, path: Path, leaf: Leaf) -> Result<(), Fault> {
        let Some(count) = self.count.checked_add(1) else {
            return Err(Fault::Memory);
        };
        let text = match print_chain(
            self.alloc,
            self.names,
            &path,
            leaf.chain.polys(),
            &leaf.certificates,
        ) {
            Ok(text) => text,
            Err(_) => return Err(Fault::Memory),
        };
        match write_all(self.sink, text.as_bytes()) {
            Ok(()) => {
                self.count = count;
                Ok(())
            }
            Err(_) => Err(Fault::Write),
        }
    }
}
