ghost use Rattle.std.specs.Prelude.{◌≡◌, IfOk, string_bytes};
ghost use Rattle.report_text.specs.Lines.{end_line, refused_line, stopped_line, summary_lines, too_long_line, usage_line};

use split_paths::{Path, Why};
use std::alloc::{AllocError, Global};
use system_parser::ParseError;

/// The line of a text that is no system.
pub fn print_refused(alloc: Global, e: &ParseError) -> Result<String, AllocError>
    ensures { IfOk result (λ text.
        string_bytes text ≡ refused_line e.now.number e.now.line e.now.byte) }
{
    let ParseError { number, line, byte } = *e;
    format!(in alloc; "refused {number} line {line} byte {byte}\n")
}

/// The line of an input that is too long to be parsed.
#[tactic(auto, unfolding(crate::specs::Lines::too_long_line))]
pub fn print_too_long(alloc: Global) -> Result<String, AllocError>
    ensures { IfOk result (λ text. string_bytes text ≡ too_long_line) }
{
    String::from_str(alloc, "refused 13\n")
}

/// The line that says how the program is called.
#[tactic(auto, unfolding(crate::specs::Lines::usage_line))]
pub fn print_usage(alloc: Global, with_workers: bool) -> Result<String, AllocError>
    ensures { IfOk result (λ text. string_bytes text ≡ usage_line with_workers) }
{
    if with_workers {
        String::from_str(
            alloc,
            "usage: triangularize [--workers K] [--steps S] [--width W] [--made K]\n",
        )
    } else {
        String::from_str(
            alloc,
            "usage: triangularize_alone [--steps S] [--width W] [--made K]\n",
        )
    }
}

/// The last line of an answer whose tree passed no limit.
pub fn print_end(alloc: Global, count: u64) -> Result<String, AllocError>
    ensures { IfOk result (λ text. string_bytes text ≡ end_line count) }
{
    format!(in alloc; "end {count}\n")
}

/// The last line of an answer that ends at a branch which passed a limit.
pub fn print_stopped(alloc: Global, path: &Path, why: Why) -> Result<String, AllocError>
    ensures { IfOk result (λ text. string_bytes text ≡ stopped_line path.now why) }
{
    let place = path.text()?;
    match why {
        Why::Steps => format!(in alloc; "stopped {place} steps\n"),
        Why::Size => format!(in alloc; "stopped {place} size\n"),
    }
}

/// The lines that stand for the chains of an answer to a made system.
pub fn print_summary(alloc: Global, k: u32, chains: u64, polys: u64) -> Result<String, AllocError>
    ensures { IfOk result (λ text. string_bytes text ≡ summary_lines k chains polys) }
{
    format!(in alloc; "made {k}\nchains {chains}\npolys {polys}\n")
}
