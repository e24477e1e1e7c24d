ghost use Rattle.std.specs.Prelude.{◌≡◌, ℕ, ◌<◌, ◌++◌, length, map, OnOk, All, string_bytes};
ghost use Rattle.std.specs.List.{flat_map};
ghost use Rattle.report_text.specs.Polynomials.{IsInLeast};
ghost use Rattle.report_text.specs.Certified.{name_of, regular_line, with_line, value_line, cofactors_below, certificate_text, IsNamedCertificate};

use crate::poly::write_poly;
use certificates::Certificate;
use sparse_poly::{Names, Poly, Polys};
use std::alloc::AllocError;

/// Appends the lines of a certificate for an initial of a chain.
pub(crate) fn write_certificate(
    text: &mut String,
    names: &Names,
    chain: &Polys,
    certificate: &Certificate,
) -> Result<(), AllocError>
    requires chain { All (IsInLeast (length names.now)) chain.now }
    requires certificate { IsNamedCertificate (length names.now) chain.now certificate.now }
    ensures { OnOk result
        (string_bytes text.new ≡ string_bytes text.old
        ++ certificate_text (map string_bytes names.now) chain.now certificate.now) }
{
    write_regular(text, names, certificate.of(), certificate.cofactor())?;
    write_below(text, names, chain, certificate)?;
    write_value(text, names, certificate.value())
}

/// Appends the line of the cofactor of an initial, whose polynomial has the main variable `v`.
fn write_regular(text: &mut String, names: &Names, v: usize, a: &Poly) -> Result<(), AllocError>
    requires variable { v < length names.now }
    requires cofactor { IsInLeast (length names.now) a.now }
    ensures { OnOk result
        (string_bytes text.new ≡ string_bytes text.old
        ++ regular_line (map string_bytes names.now) v a.now) }
{
    text.push_str("regular ")?;
    write_name(text, names, v)?;
    text.push_str(" by ")?;
    write_poly(text, names, a)?;
    text.push_str("\n")
}

/// Appends the lines of the cofactors of the polynomials below a certificate's main variable.
fn write_below(
    text: &mut String,
    names: &Names,
    chain: &Polys,
    certificate: &Certificate,
) -> Result<(), AllocError>
    requires chain { All (IsInLeast (length names.now)) chain.now }
    requires certificate { IsNamedCertificate (length names.now) chain.now certificate.now }
    ensures { OnOk result
        (string_bytes text.new ≡ string_bytes text.old
        ++ flat_map (with_line (map string_bytes names.now))
        (cofactors_below chain.now certificate.now)) }
{
    let below = certificate.below();
    let mut written = 0;
    for i in 0..chain.count() {
        match chain.at(i).main_var() {
            None => {}
            Some(u) => {
                if u < certificate.of() {
                    write_with(text, names, u, below.at(written))?;
                    written += 1;
                }
            }
        }
    }
    Ok(())
}

/// Appends the line of a cofactor of the polynomial with the main variable `u`, where it isn't 0.
fn write_with(text: &mut String, names: &Names, u: usize, b: &Poly) -> Result<(), AllocError>
    requires variable { u < length names.now }
    requires cofactor { IsInLeast (length names.now) b.now }
    ensures { OnOk result
        (string_bytes text.new ≡ string_bytes text.old
        ++ with_line (map string_bytes names.now) (u, b.now)) }
{
    if b.is_zero() {
        return Ok(());
    }
    text.push_str("with ")?;
    write_name(text, names, u)?;
    text.push_str(" ")?;
    write_poly(text, names, b)?;
    text.push_str("\n")
}

/// Appends the line of what the products add up to.
fn write_value(text: &mut String, names: &Names, r: &Poly) -> Result<(), AllocError>
    requires { IsInLeast (length names.now) r.now }
    ensures { OnOk result
        (string_bytes text.new ≡ string_bytes text.old
        ++ value_line (map string_bytes names.now) r.now) }
{
    text.push_str("value ")?;
    write_poly(text, names, r)?;
    text.push_str("\n")
}

/// Appends the name of a variable.
fn write_name(text: &mut String, names: &Names, v: usize) -> Result<(), AllocError>
    requires { v < length names.now }
    ensures { OnOk result
        (string_bytes text.new ≡ string_bytes text.old ++ name_of (map string_bytes names.now) v) }
{
    text.push_str(names.at(v).as_str())
}
