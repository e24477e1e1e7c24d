ghost use Rattle.std.specs.Prelude.{◌≡◌, ℕ, ◌≤◌, [], ◌∷◌, ◌++◌, length, map, IfOk, OnOk, string_bytes};
ghost use Rattle.polynomials.specs.Monomials.{exponent_of};
ghost use Rattle.report_text.specs.Laws.{SpellsOver, SpellsNonzeroOver};
ghost use Rattle.report_text.specs.Lines.{nonzero_line};
ghost use Rattle.report_text.specs.Polynomials.{power_text, power_texts, powers_text, term_text, poly_text, IsInLeast};

use mono_words::{Mono, VARS};
use sparse_poly::{Names, Poly};
use std::alloc::{AllocError, Global};
use std::fmt::Write;

/// The text of a polynomial.
pub fn print_poly(alloc: Global, names: &Names, f: &Poly) -> Result<String, AllocError>
    requires { IsInLeast (length names.now) f.now }
    ensures text { IfOk result (λ text.
        string_bytes text ≡ poly_text (map string_bytes names.now) f.now) }
    ensures spells { IfOk result (λ text.
        SpellsOver VARS (map string_bytes names.now) f.now (string_bytes text)) }
{
    f.facts();
    let mut text = String::new(alloc);
    write_poly(&mut text, names, f)?;
    Ok(text)
}

/// The line of a polynomial that must not vanish.
pub fn print_nonzero(alloc: Global, names: &Names, f: &Poly) -> Result<String, AllocError>
    requires { IsInLeast (length names.now) f.now }
    ensures text { IfOk result (λ text.
        string_bytes text ≡ nonzero_line (map string_bytes names.now) f.now) }
    ensures spells { IfOk result (λ text.
        SpellsNonzeroOver VARS (map string_bytes names.now) f.now (string_bytes text)) }
{
    let poly = print_poly(alloc, names, f)?;
    format!(in alloc; "nonzero {poly}\n")
}

/// Appends the text of a polynomial.
pub(crate) fn write_poly(text: &mut String, names: &Names, f: &Poly) -> Result<(), AllocError>
    requires { IsInLeast (length names.now) f.now }
    ensures { OnOk result
        (string_bytes text.new ≡ string_bytes text.old
        ++ poly_text (map string_bytes names.now) f.now) }
{
    let Some((first, others)) = f.terms().split_first() else {
        return text.push_str("0");
    };
    write_term(text, names, first)?;
    for t in others {
        text.push_str(" + ")?;
        write_term(text, names, t)?;
    }
    Ok(())
}

/// Appends the text of a term.
fn write_term(text: &mut String, names: &Names, t: &(Mono, u32)) -> Result<(), AllocError>
    requires { (v : ℕ) → length names.now ≤ v → exponent_of v t.now.0 ≡ 0 }
    ensures { OnOk result
        (string_bytes text.new ≡ string_bytes text.old
        ++ term_text (map string_bytes names.now) t.now) }
{
    let (m, c) = *t;
    // Tells that there are as many exponents as variables.
    m.shape();
    if c == 1 && !m.is_one() {
        return write_powers(text, names, m, true);
    }
    write!(text, "{c}")?;
    write_powers(text, names, m, false)
}

/// Appends the powers of a monomial, each behind `*` but for the first where they begin a term.
fn write_powers(
    text: &mut String,
    names: &Names,
    m: Mono,
    begin_term: bool,
) -> Result<(), AllocError>
    requires { (v : ℕ) → length names.now ≤ v → exponent_of v m ≡ 0 }
    ensures { OnOk result
        (string_bytes text.new ≡ string_bytes text.old
        ++ powers_text begin_term (power_texts (map string_bytes names.now) m)) }
{
    // Tells that there are as many exponents as variables.
    m.shape();
    let mut is_first = begin_term;
    for v in 0..VARS {
        let e = m.exponent(v);
        if e > 0 {
            write_factor(text, is_first, names.at(v).as_str(), e)?;
            is_first = false;
        }
    }
    Ok(())
}

/// Appends a power, behind `*` but for the first factor of a term.
fn write_factor(text: &mut String, is_first: bool, name: &str, e: u16) -> Result<(), AllocError>
    ensures { OnOk result
        (string_bytes text.new ≡ string_bytes text.old
        ++ powers_text is_first (power_text name.now e ∷ [])) }
{
    if !is_first {
        text.push_str("*")?;
    }
    write_power(text, name, e)
}

/// Appends a power; the exponent 1 isn't written.
fn write_power(text: &mut String, name: &str, e: u16) -> Result<(), AllocError>
    ensures { OnOk result
        (string_bytes text.new ≡ string_bytes text.old ++ power_text name.now e) }
{
    if e == 1 {
        return text.push_str(name);
    }
    write!(text, "{name}^{e}")
}
