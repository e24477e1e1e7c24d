ghost use Rattle.std.specs.Prelude.{◌≡◌, ◌<◌, ◌++◌, IfOk, OnOk};
ghost use Rattle.polynomials.specs.Polynomials.{IsPolynomial, sum_of};
ghost use Rattle.sparse_poly.specs.Signs.{signed, signed_residue};

use field_table::Field;
use mono_words::{Mono, VARS};
use std::alloc::{AllocError, Global};
use std::cmp::Ordering;

/// Whether a polynomial is added or taken away.
#[derive(Clone, Copy, Debug, PartialEq, Eq)]
pub enum Sign {
    Plus,
    Minus,
}

impl Sign {
    /// The coefficient with this sign.
    fn of(self, f: Field, c: u32) -> u32
        requires { c < f }
        ensures value { result ≡ signed_residue f self c }
        ensures residue { result < f }
    {
        match self {
            Sign::Plus => c,
            Sign::Minus => f.neg(c),
        }
    }
}

/// The sum of two polynomials, or their difference, by one pass over both.
pub fn merged(
    alloc: Global,
    f: Field,
    a: &[(Mono, u32)],
    sign: Sign,
    b: &[(Mono, u32)],
) -> Result<Vec<(Mono, u32)>, AllocError>
    requires left { IsPolynomial f VARS a.now }
    requires right { IsPolynomial f VARS b.now }
    ensures value { IfOk result (λ r. r.items ≡ sum_of f a.now (signed f sign b.now)) }
    ensures over { IfOk result (λ r. IsPolynomial f VARS r.items) }
{
    f.facts();
    let mut out = Vec::with_capacity(alloc, a.len().saturating_add(b.len()))?;
    let mut i = 0;
    let mut j = 0;
    while i < a.len() && j < b.len() {
        let x = a[i];
        let y = b[j];
        match x.0.cmp(&y.0) {
            Ordering::Greater => {
                out.push(x)?;
                i += 1;
            }
            Ordering::Less => {
                out.push((y.0, sign.of(f, y.1)))?;
                j += 1;
            }
            Ordering::Equal => {
                let c = f.add(x.1, sign.of(f, y.1));
                if c != 0 {
                    out.push((x.0, c))?;
                }
                i += 1;
                j += 1;
            }
        }
    }
    out.extend_from_slice(&a[i..])?;
    append_signed(&mut out, f, sign, &b[j..])?;
    Ok(out)
}

/// Appends a polynomial with its sign.
fn append_signed(
    out: &mut Vec<(Mono, u32)>,
    f: Field,
    sign: Sign,
    rest: &[(Mono, u32)],
) -> Result<(), AllocError>
    requires { IsPolynomial f VARS rest.now }
    ensures { OnOk result (out.new.items ≡ out.old.items ++ signed f sign rest.now) }
{
    for t in rest {
        out.push((t.0, sign.of(f, t.1)))?;
    }
    Ok(())
}
