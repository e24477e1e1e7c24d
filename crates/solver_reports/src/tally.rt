ghost use Rattle.std.specs.Prelude.{◌≡◌, ◌+◌, length, None, IfOk, OnOk};
ghost use Rattle.solver_reports.specs.Growth.{GrowsTo};
ghost use Rattle.solver_reports.specs.Walks.{summary_of};

use crate::tree::Walked;
use certificates::Leaf;
use report_text::{print_stopped, print_summary};
use split_paths::{Event, Outcome, Path, Why};
use std::alloc::{AllocError, Global};
use std::marker::Model;

/// What an answer counts to, without its text.
#[derive(Drop)]
pub struct Tally {
    /// How many chains there are.
    chains: u64,

    /// How many polynomials they have together.
    polys: u64,

    /// The branch that was stopped, and what stopped it.
    stop: Option<(Path, Why)>,
}

impl Model for Tally {
    ghost use Rattle.solver_reports.specs.Walks.{Counts};

    ghost Value = { Counts };

    ghost view = { λ tally. record {
      chains = tally.chains;
      polys = tally.polys;
      stop = tally.stop;
    } };
}

impl Tally {
    /// Nothing yet.
    pub(crate) fn new() -> Tally
        ensures chains { result.chains ≡ 0 }
        ensures polys { result.polys ≡ 0 }
        ensures stop { result.stop ≡ None }
    {
        Tally {
            chains: 0,
            polys: 0,
            stop: None,
        }
    }

    /// Takes the next event of the tree. Answers whether the counts end here, at a branch that was
    /// stopped.
    pub(crate) fn note(&mut self, event: Event<Leaf>) -> Result<bool, AllocError>
        ensures { IfOk result (GrowsTo event self.old self.new) }
    {
        match event {
            Event::Split { path: _, kids: _ } => Ok(false),
            Event::Leaf { path, outcome } => match outcome {
                Outcome::Gone => Ok(false),
                Outcome::Chain(leaf) => {
                    self.add(&leaf)?;
                    Ok(false)
                }
                Outcome::Steps => {
                    self.stop = Some((path, Why::Steps));
                    Ok(true)
                }
                Outcome::TooWide => {
                    self.stop = Some((path, Why::Size));
                    Ok(true)
                }
            },
        }
    }

    /// Counts a chain. A count that doesn't fit is as want of memory.
    fn add(&mut self, leaf: &Leaf) -> Result<(), AllocError>
        ensures chains { OnOk result (self.new.chains ≡ self.old.chains + 1) }
        ensures polys { OnOk result (self.new.polys ≡ self.old.polys + length leaf.now.chain) }
        ensures stop { self.new.stop ≡ self.old.stop }
    {
        let count = leaf.chain.polys().count() as u64;
        let (Some(chains), Some(polys)) = (
            self.chains.checked_add(1),
            self.polys.checked_add(count),
        ) else {
            return Err(AllocError);
        };
        self.chains = chains;
        self.polys = polys;
        Ok(())
    }

    /// The summary of an answer that counts to this, of the system that is made from `k`.
    pub fn summary(&self, alloc: Global, k: u32) -> Result<Walked, AllocError>
        ensures { IfOk result (λ walked. walked ≡ summary_of k self.now) }
    {
        let mut text = print_summary(alloc, k, self.chains, self.polys)?;
        let Some((path, why)) = &self.stop else {
            return Ok(Walked {
                text,
                stopped: false,
            });
        };
        let line = print_stopped(alloc, path, *why)?;
        text.push_str(line.as_str())?;
        Ok(Walked {
            text,
            stopped: true,
        })
    }
}
