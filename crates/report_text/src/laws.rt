ghost use Rattle.report_text.specs.Laws.{PrintedPolynomialsAreSpelled, PrintedPolynomialsAreRead, PrintedNonzeroLinesAreSpelled, PrintedNonzeroLinesAreRead};

use system_text::{spelled_nonzero_lines_are_read, spelled_sums_are_read};

/// The text of a polynomial is a sum of a system text, whose value is the polynomial.
pub fn printed_polynomials_are_spelled()
    ensures { PrintedPolynomialsAreSpelled }
{}

/// The text of a polynomial reads as the same polynomial.
pub fn printed_polynomials_are_read()
    ensures { PrintedPolynomialsAreRead }
{
    spelled_sums_are_read();
}

/// The line of a polynomial that must not vanish is a nonzero line of a system text with this value.
pub fn printed_nonzero_lines_are_spelled()
    ensures { PrintedNonzeroLinesAreSpelled }
{}

/// The line of a polynomial that must not vanish reads as the same polynomial.
pub fn printed_nonzero_lines_are_read()
    ensures { PrintedNonzeroLinesAreRead }
{
    spelled_nonzero_lines_are_read();
}
