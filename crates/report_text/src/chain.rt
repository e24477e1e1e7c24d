ghost use Rattle.std.specs.Prelude.{◌≡◌, length, map, IfOk, All, string_bytes};
ghost use Rattle.report_text.specs.Polynomials.{IsInLeast};
ghost use Rattle.report_text.specs.Lines.{plain_chain_text};
ghost use Rattle.report_text.specs.Certified.{chain_text, IsNamedCertificate};

use crate::certificate::write_certificate;
use crate::poly::write_poly;
use certificates::Certificates;
use sparse_poly::{Names, Polys};
use split_paths::Path;
use std::alloc::{AllocError, Global};
use std::fmt::Write;

/// The lines of a chain without certificates, its polynomials in order.
pub fn print_plain_chain(
    alloc: Global,
    names: &Names,
    path: &Path,
    polys: &Polys,
) -> Result<String, AllocError>
    requires { All (IsInLeast (length names.now)) polys.now }
    ensures { IfOk result (λ text.
        string_bytes text
        ≡ plain_chain_text (map string_bytes names.now) path.now polys.now) }
{
    let place = path.text()?;
    let mut text = format!(in alloc; "chain {place}\n")?;
    for i in 0..polys.count() {
        text.push_str("poly ")?;
        write_poly(&mut text, names, polys.at(i))?;
        text.push_str("\n")?;
    }
    Ok(text)
}

/// The lines of a chain: its polynomials and its certificates, each list in its order.
pub fn print_chain(
    alloc: Global,
    names: &Names,
    path: &Path,
    polys: &Polys,
    certificates: &Certificates,
) -> Result<String, AllocError>
    requires polys { All (IsInLeast (length names.now)) polys.now }
    requires certificates { All (IsNamedCertificate (length names.now) polys.now) certificates.now }
    ensures { IfOk result (λ text.
        string_bytes text
        ≡ chain_text (map string_bytes names.now) path.now polys.now certificates.now) }
{
    let mut text = print_plain_chain(alloc, names, path, polys)?;
    for i in 0..certificates.count() {
        write_certificate(&mut text, names, polys, certificates.at(i))?;
    }
    Ok(text)
}
