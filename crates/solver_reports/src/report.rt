ghost use Rattle.std.specs.Prelude.{◌≡◌, ◌+◌, ◌++◌, length, map, IfOk, OnOk, All, string_bytes};
ghost use Rattle.report_text.specs.Polynomials.{IsInLeast};
ghost use Rattle.report_text.specs.Lines.{end_line, stopped_line};
ghost use Rattle.report_text.specs.Answers.{leaf_text, nonzero_text};
ghost use Rattle.solver_reports.specs.Growth.{IsPrintableLeaf, IsPrintableEvent, Grows};

use crate::nonzero::nonzero_lines;
use certificates::Leaf;
use report_text::{print_chain, print_end, print_stopped};
use sparse_poly::{Names, Polys};
use split_paths::{Event, Outcome, Path, Why};
use std::alloc::{AllocError, Global};
use std::marker::Model;

/// The report so far: its text up to the last chain, and how many chains there are.
#[derive(Drop)]
pub struct Report {
    text: String,
    count: u64,
}

impl Model for Report {
    ghost use Rattle.std.specs.Prelude.{string_bytes};
    ghost use Rattle.solver_reports.specs.Walks.{Front};

    ghost Value = { Front };

    ghost view = { λ report. record { text = string_bytes report.text; count = report.count } };
}

impl Report {
    /// A report without chains, of a system with these polynomials that must not vanish.
    pub fn new(alloc: Global, names: &Names, nonzero: &Polys) -> Result<Report, AllocError>
        requires { All (IsInLeast (length names.now)) nonzero.now }
        ensures text { IfOk result (λ report.
            report.text ≡ nonzero_text (map string_bytes names.now) nonzero.now) }
        ensures count { IfOk result (λ report. report.count ≡ 0) }
    {
        Ok(Report {
            text: nonzero_lines(alloc, names, nonzero)?,
            count: 0,
        })
    }

    /// Takes the next event of the tree. Answers whether the report ends here, at a branch that was
    /// stopped.
    pub fn note(
        &mut self,
        alloc: Global,
        names: &Names,
        event: Event<Leaf>,
    ) -> Result<bool, AllocError>
        requires { IsPrintableEvent (length names.now) event }
        ensures { IfOk result (Grows (map string_bytes names.now) event self.old self.new) }
    {
        match event {
            Event::Split { path: _, kids: _ } => Ok(false),
            Event::Leaf { path, outcome } => match outcome {
                Outcome::Gone => Ok(false),
                Outcome::Chain(leaf) => {
                    self.add(alloc, names, &path, &leaf)?;
                    Ok(false)
                }
                Outcome::Steps => {
                    self.stop(alloc, &path, Why::Steps)?;
                    Ok(true)
                }
                Outcome::TooWide => {
                    self.stop(alloc, &path, Why::Size)?;
                    Ok(true)
                }
            },
        }
    }

    /// Adds a chain with its certificates.
    fn add(
        &mut self,
        alloc: Global,
        names: &Names,
        path: &Path,
        leaf: &Leaf,
    ) -> Result<(), AllocError>
        requires { IsPrintableLeaf (length names.now) leaf.now }
        ensures text { OnOk result (self.new.text ≡ self.old.text
            ++ leaf_text (map string_bytes names.now) (path.now, leaf.now)) }
        ensures count { OnOk result (self.new.count ≡ self.old.count + 1) }
    {
        let Some(count) = self.count.checked_add(1) else {
            return Err(AllocError);
        };
        let text = print_chain(alloc, names, path, leaf.chain.polys(), &leaf.certificates)?;
        self.text.push_str(text.as_str())?;
        self.count = count;
        Ok(())
    }

    /// Adds the line of a branch that was stopped.
    fn stop(&mut self, alloc: Global, path: &Path, why: Why) -> Result<(), AllocError>
        ensures { OnOk result (self.new.text ≡ self.old.text ++ stopped_line path.now why) }
    {
        let line = print_stopped(alloc, path, why)?;
        self.text.push_str(line.as_str())
    }

    /// The text with the line of its end.
    pub fn ended(self, alloc: Global) -> Result<String, AllocError>
        ensures { IfOk result (λ text. string_bytes text ≡ self.text ++ end_line self.count) }
    {
        let line = print_end(alloc, self.count)?;
        let mut text = self.text;
        text.push_str(line.as_str())?;
        Ok(text)
    }

    /// The text as it stands.
    pub fn into_text(self) -> String
        ensures { string_bytes result ≡ self.text }
    {
        self.text
    }
}
