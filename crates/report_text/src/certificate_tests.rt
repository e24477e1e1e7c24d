ghost use Rattle.std.specs.Prelude.{◌≡◌, length, IsTrue};
ghost use Rattle.zero_sets.specs.ZeroSets.{members_below};
ghost use Rattle.report_text.specs.Certified.{IsNamedCertificate};

use super::print_chain;
use super::tests::{are_in_least, is_in_least, names_of, poly};
use certificates::{Certificate, Certificates};
use field_table::Field;
use sparse_poly::Polys;
use split_paths::Path;
use std::alloc::Global;
use std::test::Fail;

/// How many polynomials of a chain have a main variable less than `v`.
fn count_below(chain: &Polys, v: usize) -> usize
    ensures { result ≡ length (members_below v chain.now) }
{
    let mut count = 0;
    for i in 0..chain.count() {
        match chain.at(i).main_var() {
            None => {}
            Some(u) => {
                if u < v {
                    count += 1;
                }
            }
        }
    }
    count
}

/// Whether only the `k` least variables occur in a certificate with as many cofactors as it needs.
fn is_named(k: usize, chain: &Polys, c: &Certificate) -> bool
    ensures { IsTrue result → IsNamedCertificate k chain.now c.now }
{
    c.of() < k
        && is_in_least(k, c.cofactor())
        && are_in_least(k, c.below())
        && is_in_least(k, c.value())
        && c.below().count() == count_below(chain, c.of())
}

/// The text of a chain with one certificate, and none where a variable has no name.
fn printed(
    alloc: Global,
    names: &str,
    path: &Path,
    chain: &Polys,
    certificate: Certificate,
) -> Result<String, Fail> {
    let names = names_of(alloc, names)?;
    let named = is_named(names.count(), chain, &certificate);
    let mut certificates = Certificates::new(alloc);
    certificates.push(certificate)?;
    if !named || !are_in_least(names.count(), chain) {
        return Ok(String::new(alloc));
    }
    Ok(print_chain(alloc, &names, path, chain, &certificates)?)
}

/// x, y^2, x*y^2*z + y*z + 4*z + 4.
#[test]
fn a_cofactor_that_is_0_has_no_line(rt: HostRuntime) -> Result<(), Fail> {
    let alloc = rt.alloc();
    let f = Field::of(5)?;
    let mut chain = Polys::new(alloc);
    chain.push(poly(alloc, f, &[(1, [1, 0, 0, 0])])?)?;
    chain.push(poly(alloc, f, &[(1, [0, 2, 0, 0])])?)?;
    let last = [
        (1, [1, 2, 1, 0]),
        (1, [0, 1, 1, 0]),
        (4, [0, 0, 1, 0]),
        (4, [0, 0, 0, 0]),
    ];
    chain.push(poly(alloc, f, &last)?)?;
    let mut below = Polys::new(alloc);
    below.push(poly(alloc, f, &[])?)?;
    let of_y = [(1, [1, 1, 0, 0]), (1, [1, 0, 0, 0]), (1, [0, 0, 0, 0])];
    below.push(poly(alloc, f, &of_y)?)?;
    let cofactor = poly(alloc, f, &[(4, [0, 1, 0, 0]), (4, [0, 0, 0, 0])])?;
    let value = poly(alloc, f, &[(1, [0, 0, 0, 0])])?;
    let certificate = Certificate::new(2, cofactor, below, value);
    let path = Path::root(alloc).child(1)?.child(1)?;
    let text = printed(alloc, "x y z", &path, &chain, certificate)?;
    assert_eq!(rt;
        text.as_str(),
        "chain 1.1\npoly x\npoly y^2\npoly x*y^2*z + y*z + 4*z + 4\n\
         regular z by 4*y + 4\nwith y x*y + x + 1\nvalue 1\n"
    );
    Ok(())
}

/// x^2 + 4*a, x*y + 4: the least variable is no main variable.
#[test]
fn cofactors_stand_beside_their_main_variables(rt: HostRuntime) -> Result<(), Fail> {
    let alloc = rt.alloc();
    let f = Field::of(5)?;
    let mut chain = Polys::new(alloc);
    chain.push(poly(alloc, f, &[(1, [0, 2, 0, 0]), (4, [1, 0, 0, 0])])?)?;
    chain.push(poly(alloc, f, &[(1, [0, 1, 1, 0]), (4, [0, 0, 0, 0])])?)?;
    let mut below = Polys::new(alloc);
    below.push(poly(alloc, f, &[(1, [0, 0, 0, 0])])?)?;
    let cofactor = poly(alloc, f, &[(4, [0, 1, 0, 0])])?;
    let value = poly(alloc, f, &[(4, [1, 0, 0, 0])])?;
    let certificate = Certificate::new(2, cofactor, below, value);
    let text = printed(
        alloc,
        "a x y",
        &Path::root(alloc).child(1)?,
        &chain,
        certificate,
    )?;
    assert_eq!(rt;
        text.as_str(),
        "chain 1\npoly x^2 + 4*a\npoly x*y + 4\nregular y by 4*x\nwith x 1\nvalue 4*a\n"
    );
    Ok(())
}
