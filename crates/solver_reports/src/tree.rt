ghost use Rattle.std.specs.Prelude.{◌≡◌, length, map, IfOk, All, string_bytes};
ghost use Rattle.split_paths.specs.Answer.{answer_of};
ghost use Rattle.split_paths.specs.Tree.{events_of, events_to_come};
ghost use Rattle.finish_rules.specs.Leaves.{Leaf};
ghost use Rattle.report_text.specs.Polynomials.{IsInLeast};
ghost use Rattle.solver_reports.specs.Walks.{counts_of, walk_of};
ghost use Rattle.solver_reports.specs.Growth.{IsPrintableLeaf};

use crate::report::Report;
use crate::tally::Tally;
use certificates::Leaf;
use generators::{Generator, Turn};
use sparse_poly::{Names, Polys};
use split_paths::{Offer, Splitter};
use std::alloc::{AllocError, Global};
use std::marker::Model;

/// The text of an answer, and whether it ends at a branch that was stopped.
#[derive(Drop)]
pub struct Walked {
    pub text: String,
    pub stopped: bool,
}

impl Model for Walked {
    ghost use Rattle.std.specs.Prelude.{string_bytes};
    ghost use Rattle.solver_reports.specs.Walks.{Walk};

    ghost Value = { Walk };

    ghost view = { λ walked. record { text = string_bytes walked.text; stopped = walked.stopped } };
}

/// Walks the tree below an offer, and reports its answer behind the polynomials that must not vanish.
pub fn walk<X: Splitter<Leaf = Leaf>>(
    alloc: Global,
    names: &Names,
    nonzero: &Polys,
    splitter: &X,
    root: Offer<X>,
) -> Result<Walked, AllocError>
    requires lawful { X.lawful_task splitter.now root.task }
    requires nonzero { All (IsInLeast (length names.now)) nonzero.now }
    requires printable { (leaf : Leaf) → X.lawful_leaf splitter.now leaf
        → IsPrintableLeaf (length names.now) leaf }
    ensures { IfOk result (λ walked. walked ≡ walk_of (map string_bytes names.now) nonzero.now
        (answer_of (events_of (X.step splitter.now) root))) }
{
    let mut report = Report::new(alloc, names, nonzero)?;
    let mut generator = Generator::of(alloc, root)?;
    loop {
        match generator.turn(splitter) {
            Ok(Turn::Quiet) => {}
            Ok(Turn::Event(event)) => {
                if report.note(alloc, names, event)? {
                    return Ok(Walked {
                        text: report.into_text(),
                        stopped: true,
                    });
                }
            }
            Ok(Turn::Done) => {
                return Ok(Walked {
                    text: report.ended(alloc)?,
                    stopped: false,
                });
            }
            Err(_) => return Err(AllocError),
        }
    }
}

/// Walks the tree below an offer, and counts its answer. No text of a chain is built.
pub fn count<X: Splitter<Leaf = Leaf>>(
    alloc: Global,
    splitter: &X,
    root: Offer<X>,
) -> Result<Tally, AllocError>
    requires { X.lawful_task splitter.now root.task }
    ensures { IfOk result (λ tally. tally
        ≡ counts_of (answer_of (events_of (X.step splitter.now) root))) }
{
    let mut tally = Tally::new();
    let mut generator = Generator::of(alloc, root)?;
    loop {
        match generator.turn(splitter) {
            Ok(Turn::Quiet) => {}
            Ok(Turn::Event(event)) => {
                if tally.note(event)? {
                    return Ok(tally);
                }
            }
            Ok(Turn::Done) => return Ok(tally),
            Err(_) => return Err(AllocError),
        }
    }
}
