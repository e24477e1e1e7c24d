ghost use Rattle.std.specs.Prelude.{◌≡◌, ◌<◌, ◌++◌, ℕ, IfOk, OnOk};
ghost use Rattle.polynomials.specs.Polynomials.{IsPolynomial};
ghost use Rattle.system_text.specs.Readings.{empty_frame};
ghost use Rattle.system_text.specs.Factors.{with_last};
ghost use Rattle.system_parser.specs.Sums.{frame_of, IsFrame, signed_terms, negated_if};

use field_table::Field;
use mono_words::{Mono, VARS};
use sparse_poly::Poly;
use std::alloc::{AllocError, Global};

/// A sum that isn't read to its end.
#[derive(Debug, Drop)]
pub struct Frame {
    /// The terms that its earlier terms make, to be collected once.
    pub terms: Vec<(Mono, u32)>,
    /// Whether the term that is read is taken away.
    pub is_negative: bool,
    /// The product of that term's earlier factors.
    pub product: Option<Poly>,
}

impl Frame {
    pub fn new(alloc: Global) -> Self
        ensures empty { (p : ℕ) → frame_of p result ≡ empty_frame }
        ensures over { (p : ℕ) → IsFrame p result }
    {
        Frame {
            terms: Vec::new(alloc),
            is_negative: false,
            product: None,
        }
    }

    /// Ends the term that is read, whose value this is.
    pub fn end_term(&mut self, f: Field, value: &Poly) -> Result<(), AllocError>
        requires frame { IsFrame f self.old }
        requires over { IsPolynomial f VARS value.now }
        ensures sum { OnOk result ((frame_of f self.new).sum ≡
            with_last f (frame_of f self.old) value.now) }
        ensures sign { self.new.is_negative ≡ self.old.is_negative }
        ensures product { self.new.product ≡ self.old.product }
        ensures frame { OnOk result (IsFrame f self.new) }
    {
        f.facts();
        let sign = self.is_negative;
        append_signed(&mut self.terms, f, sign, value.terms())
    }

    /// The sum of the terms that were ended.
    pub fn sum(&self, f: Field) -> Result<Poly, AllocError>
        requires { IsFrame f self.now }
        ensures value { IfOk result (λ r. r ≡ (frame_of f self.now).sum) }
        ensures over { IfOk result (IsPolynomial f VARS) }
    {
        Poly::from_terms(*self.terms.allocator(), f, &self.terms)
    }
}

/// Appends terms, with their signs turned or not.
fn append_signed(
    out: &mut Vec<(Mono, u32)>,
    f: Field,
    is_negative: bool,
    terms: &[(Mono, u32)],
) -> Result<(), AllocError>
    requires { IsPolynomial f VARS terms.now }
    ensures { OnOk result (out.new.items ≡ out.old.items ++ signed_terms f is_negative terms.now) }
{
    for t in terms {
        out.push((t.0, signed(f, is_negative, t.1)))?;
    }
    Ok(())
}

/// The residue, or its negative.
fn signed(f: Field, is_negative: bool, c: u32) -> u32
    requires { c < f }
    ensures { result ≡ negated_if f is_negative c }
{
    if is_negative { f.neg(c) } else { c }
}
