ghost use Rattle.std.specs.Prelude.{◌≡◌, ◌≢◌, ◌++◌, [], not, IfOk, OnOk};
ghost use Rattle.polynomials.specs.Polynomials.{IsPolynomial};
ghost use Rattle.zero_sets.specs.Tasks.{is_known_nonzero, with_nonzero};
ghost use Rattle.impose_rules.specs.Leads.{lead_cases};
ghost use Rattle.subresultants.specs.Ends.{HasLeads};

use chains::NonZero;
use field_table::Field;
use item_lists::Items;
use mono_words::VARS;
use sparse_poly::Poly;
use std::alloc::{AllocError, Global};
use subresultants::RowEnds;

/// Numbers of remainder rows.
pub type Places = Items<usize>;

/// The rows from row 2 on whose leads aren't known nonzero when those before them don't vanish.
pub fn lead_cases(
    alloc: Global,
    f: Field,
    rows: &RowEnds,
    nonzero: &NonZero,
) -> Result<Places, AllocError>
    requires leads { HasLeads f rows.now }
    ensures { IfOk result (λ places. places ≡ lead_cases f nonzero.now rows.now.leads) }
{
    let leads = &rows.leads;
    let mut added = NonZero::empty(alloc);
    let mut places = Places::new(alloc);
    let _ = is_new(f, nonzero, &mut added, leads.at(0))?;
    for i in 1..leads.count() {
        if is_new(f, nonzero, &mut added, leads.at(i))? {
            places.push(i + 1)?;
        }
    }
    Ok(places)
}

/// Whether `h`, which isn't 0, is known by neither; it is added to the second then.
fn is_new(f: Field, nonzero: &NonZero, added: &mut NonZero, h: &Poly) -> Result<bool, AllocError>
    requires over { IsPolynomial f VARS h.now }
    requires some { h.now ≢ [] }
    ensures new { IfOk result (λ new. new
        ≡ not (is_known_nonzero f (nonzero.now ++ added.old) h.now)) }
    ensures added { OnOk result (nonzero.now ++ added.new
        ≡ with_nonzero f (nonzero.now ++ added.old) h.now) }
{
    if nonzero.knows(f, h) {
        return Ok(false);
    }
    if added.knows(f, h) {
        return Ok(false);
    }
    added.add(f, h)?;
    Ok(true)
}
