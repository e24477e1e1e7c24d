ghost use Rattle.std.specs.Prelude.{◌≡◌, ◌<◌, ◌≤◌, ◌+◌, ◌^◌, [], ◌∷◌, ◌++◌, length, All, IfOk, IfSome, IfNone, OnOk, IsTrue, IsPermutation};
ghost use Rattle.std.specs.BinaryHeap.{IsHeap, heap_items};
ghost use Rattle.std.specs.declared.cmp.Ordering.TheVariants.{Less};
ghost use Rattle.polynomials.specs.Monomials.{monomial_order};
ghost use Rattle.polynomials.specs.Polynomials.{IsPolynomial, term, collected, product_of, sum_of, negative_of};
ghost use Rattle.sparse_poly.specs.Falling.{IsAtMost};
ghost use Rattle.sparse_poly.specs.Pairs.{FitsEach, PairsFit};
ghost use Rattle.poly_quotient.specs.Rests.{entry_order, AreProducts, products_left, added_products, TakesGreatest, sum_of_rest};

use field_table::Field;
use mono_words::{Mono, VARS};
use std::alloc::{AllocError, Global};
use std::collections::BinaryHeap;

/// What is left of a division: terms of the dividend, and the opposite products of terms of the
/// quotient and of the divisor.
#[derive(Drop)]
pub struct Rest<'a> {
    terms: &'a [(Mono, u32)],
    products: Products,
}

/// The products that aren't taken yet. For each term of the divisor the heap has one of them at most,
/// the greatest: its monomial, and the places of its factors in the quotient and in the divisor. A
/// term of the divisor whose products are all taken waits for the next term of the quotient.
#[derive(Drop)]
struct Products {
    heap: BinaryHeap<(Mono, u32, u32)>,
    waiting: Vec<u32>,
}

impl<'a> Rest<'a> {
    /// All of a polynomial, where no product of the quotient is to be taken from it yet.
    pub fn of(
        alloc: Global,
        f: Field,
        terms: &'a [(Mono, u32)],
        quotient: &[(Mono, u32)],
        divisor: &[(Mono, u32)],
    ) -> Result<Rest<'a>, AllocError>
        requires quotient { IsPolynomial f VARS quotient.now }
        requires divisor { IsPolynomial f VARS divisor.now }
        requires fit { PairsFit quotient.now divisor.now }
        requires few { length quotient.now < 2 ^ 32 }
        requires short { length divisor.now < 2 ^ 32 }
        ensures terms { IfOk result (λ r. r.terms.now ≡ terms.now) }
        ensures none { IfOk result (λ r. heap_items r.products.heap ≡ []) }
        ensures order { IfOk result (λ r. IsHeap entry_order (heap_items r.products.heap)) }
        ensures products { IfOk result (λ r. AreProducts f VARS quotient.now divisor.now
            (heap_items r.products.heap) r.products.waiting.items) }
    {
        let mut waiting = Vec::with_capacity(alloc, divisor.len())?;
        for j in 0..divisor.len() as u32 {
            waiting.push(j)?;
        }
        let products = Products {
            heap: BinaryHeap::new(alloc),
            waiting,
        };
        Ok(Rest { terms, products })
    }

    /// Takes out the first term of the sum.
    pub fn take_first(
        &mut self,
        f: Field,
        quotient: &[(Mono, u32)],
        divisor: &[(Mono, u32)],
    ) -> Result<Option<(Mono, u32)>, AllocError>
        requires canonical { IsPolynomial f VARS self.old.terms.now }
        requires order { IsHeap entry_order (heap_items self.old.products.heap) }
        requires products { AreProducts f VARS quotient.now divisor.now
            (heap_items self.old.products.heap) self.old.products.waiting.items }
        ensures canonical { OnOk result (IsPolynomial f VARS self.new.terms.now) }
        ensures order { OnOk result (IsHeap entry_order (heap_items self.new.products.heap)) }
        ensures products { OnOk result (AreProducts f VARS quotient.now divisor.now
            (heap_items self.new.products.heap) self.new.products.waiting.items) }
        ensures none { IfOk result (λ r. IfNone r (
            sum_of_rest f self.old.terms.now
            (products_left f quotient.now divisor.now (heap_items self.old.products.heap)) ≡ [])) }
        ensures some { IfOk result (λ r. IfSome r (λ t.
            sum_of_rest f self.old.terms.now
            (products_left f quotient.now divisor.now (heap_items self.old.products.heap))
            ≡ t ∷ sum_of_rest f self.new.terms.now
            (products_left f quotient.now divisor.now (heap_items self.new.products.heap)))) }
    {
        while let Some(first) = self.take_greatest(f, quotient, divisor)? {
            let sum = self
                .products
                .sum_of(f, first.0, first.1, quotient, divisor)?;
            if sum != 0 {
                return Ok(Some((first.0, sum)));
            }
        }
        Ok(None)
    }

    /// Takes out an item with the greatest monomial: a term, or a product of which there is no term.
    fn take_greatest(
        &mut self,
        f: Field,
        quotient: &[(Mono, u32)],
        divisor: &[(Mono, u32)],
    ) -> Result<Option<(Mono, u32)>, AllocError>
        requires canonical { IsPolynomial f VARS self.old.terms.now }
        requires order { IsHeap entry_order (heap_items self.old.products.heap) }
        requires products { AreProducts f VARS quotient.now divisor.now
            (heap_items self.old.products.heap) self.old.products.waiting.items }
        ensures canonical { IsPolynomial f VARS self.new.terms.now }
        ensures order { OnOk result (IsHeap entry_order (heap_items self.new.products.heap)) }
        ensures products { OnOk result (AreProducts f VARS quotient.now divisor.now
            (heap_items self.new.products.heap) self.new.products.waiting.items) }
        ensures none { IfOk result (λ r. IfNone r (self.old.terms.now
            ++ products_left f quotient.now divisor.now (heap_items self.old.products.heap) ≡ [])) }
        ensures some { IfOk result (λ r. IfSome r (λ t. TakesGreatest f VARS self.old.terms.now
            (products_left f quotient.now divisor.now (heap_items self.old.products.heap))
            t self.new.terms.now
            (products_left f quotient.now divisor.now (heap_items self.new.products.heap)))) }
    {
        f.facts();
        match self.terms.split_first() {
            None => self.products.take(f, quotient, divisor),
            Some((first, later)) => {
                if self.products.has_greater(f, first.0, quotient, divisor) {
                    self.products.take(f, quotient, divisor)
                } else {
                    self.terms = later;
                    Ok(Some(*first))
                }
            }
        }
    }

    /// Goes on with the term `t` after those of the quotient: its products by the divisor's terms are
    /// taken from the sum.
    pub fn go_on(
        &mut self,
        f: Field,
        t: (Mono, u32),
        quotient: &[(Mono, u32)],
        divisor: &[(Mono, u32)],
    ) -> Result<(), AllocError>
        requires canonical { IsPolynomial f VARS self.old.terms.now }
        requires order { IsHeap entry_order (heap_items self.old.products.heap) }
        requires products { AreProducts f VARS quotient.now divisor.now
            (heap_items self.old.products.heap) self.old.products.waiting.items }
        requires next { IsPolynomial f VARS (quotient.now ++ t ∷ []) }
        requires fit { FitsEach t.0 divisor.now }
        requires few { length quotient.now + 1 < 2 ^ 32 }
        ensures canonical { OnOk result (IsPolynomial f VARS self.new.terms.now) }
        ensures order { OnOk result (IsHeap entry_order (heap_items self.new.products.heap)) }
        ensures products { OnOk result (AreProducts f VARS (quotient.now ++ t ∷ []) divisor.now
            (heap_items self.new.products.heap) self.new.products.waiting.items) }
        ensures sum { OnOk result (
            sum_of_rest f self.new.terms.now
            (products_left f (quotient.now ++ t ∷ []) divisor.now (heap_items self.new.products.heap))
            ≡ sum_of f
            (sum_of_rest f self.old.terms.now
            (products_left f quotient.now divisor.now (heap_items self.old.products.heap)))
            (product_of f (negative_of f (t ∷ [])) divisor.now)) }
    {
        f.facts();
        self.products.go_on(f, t, quotient, divisor)
    }
}

impl Products {
    /// Whether a product has a greater monomial.
    fn has_greater(
        &self,
        f: Field,
        monomial: Mono,
        quotient: &[(Mono, u32)],
        divisor: &[(Mono, u32)],
    ) -> bool
        requires order { IsHeap entry_order (heap_items self.now.heap) }
        requires products { AreProducts f VARS quotient.now divisor.now
            (heap_items self.now.heap) self.now.waiting.items }
        ensures some { IsTrue result → ¬ All (λ u. IsAtMost monomial u.0)
            (products_left f quotient.now divisor.now (heap_items self.now.heap)) }
        ensures none { ¬ IsTrue result → All (λ u. IsAtMost monomial u.0)
            (products_left f quotient.now divisor.now (heap_items self.now.heap)) }
    {
        match self.heap.peek() {
            None => false,
            Some(top) => top.0 > monomial,
        }
    }

    /// Takes out the products with the greatest monomial, and adds their coefficients to `c`.
    fn sum_of(
        &mut self,
        f: Field,
        monomial: Mono,
        c: u32,
        quotient: &[(Mono, u32)],
        divisor: &[(Mono, u32)],
    ) -> Result<u32, AllocError>
        requires residue { c < f }
        requires order { IsHeap entry_order (heap_items self.old.heap) }
        requires products { AreProducts f VARS quotient.now divisor.now
            (heap_items self.old.heap) self.old.waiting.items }
        requires most { All (λ u. IsAtMost monomial u.0)
            (products_left f quotient.now divisor.now (heap_items self.old.heap)) }
        ensures residue { IfOk result (λ r. r < f) }
        ensures order { OnOk result (IsHeap entry_order (heap_items self.new.heap)) }
        ensures products { OnOk result (AreProducts f VARS quotient.now divisor.now
            (heap_items self.new.heap) self.new.waiting.items) }
        ensures below { OnOk result (All (λ u. monomial_order u.0 monomial ≡ Less)
            (products_left f quotient.now divisor.now (heap_items self.new.heap))) }
        ensures sum { IfOk result (λ r. collected f (term monomial c
            ∷ products_left f quotient.now divisor.now (heap_items self.old.heap))
            ≡ collected f (term monomial r
            ∷ products_left f quotient.now divisor.now (heap_items self.new.heap))) }
        ensures count { OnOk result (
            length (products_left f quotient.now divisor.now (heap_items self.new.heap))
            ≤ length (products_left f quotient.now divisor.now (heap_items self.old.heap))) }
    {
        // Tells how many exponents the monomial has.
        monomial.shape();
        let mut sum = c;
        while let Some(more) = self.take_at(f, monomial, quotient, divisor)? {
            sum = f.add(sum, more);
        }
        Ok(sum)
    }

    /// Takes out a product with the greatest monomial, and gives its coefficient.
    fn take_at(
        &mut self,
        f: Field,
        monomial: Mono,
        quotient: &[(Mono, u32)],
        divisor: &[(Mono, u32)],
    ) -> Result<Option<u32>, AllocError>
        requires order { IsHeap entry_order (heap_items self.old.heap) }
        requires products { AreProducts f VARS quotient.now divisor.now
            (heap_items self.old.heap) self.old.waiting.items }
        requires most { All (λ u. IsAtMost monomial u.0)
            (products_left f quotient.now divisor.now (heap_items self.old.heap)) }
        ensures order { OnOk result (IsHeap entry_order (heap_items self.new.heap)) }
        ensures products { OnOk result (AreProducts f VARS quotient.now divisor.now
            (heap_items self.new.heap) self.new.waiting.items) }
        ensures some { IfOk result (λ r. IfSome r (λ c. IsPermutation
            (products_left f quotient.now divisor.now (heap_items self.old.heap))
            (term monomial c
            ∷ products_left f quotient.now divisor.now (heap_items self.new.heap)))) }
        ensures none { IfOk result (λ r. IfNone r (heap_items self.new.heap ≡ heap_items self.old.heap)) }
        ensures below { IfOk result (λ r. IfNone r (All (λ u. monomial_order u.0 monomial ≡ Less)
            (products_left f quotient.now divisor.now (heap_items self.new.heap)))) }
    {
        match self.heap.peek() {
            Some(top) if top.0 == monomial => match self.heap.pop() {
                None => Ok(None),
                Some(entry) => Ok(Some(self.take_entry(f, entry, quotient, divisor)?)),
            },
            _ => Ok(None),
        }
    }

    /// Takes out a product with the greatest monomial.
    fn take(
        &mut self,
        f: Field,
        quotient: &[(Mono, u32)],
        divisor: &[(Mono, u32)],
    ) -> Result<Option<(Mono, u32)>, AllocError>
        requires order { IsHeap entry_order (heap_items self.old.heap) }
        requires products { AreProducts f VARS quotient.now divisor.now
            (heap_items self.old.heap) self.old.waiting.items }
        ensures order { OnOk result (IsHeap entry_order (heap_items self.new.heap)) }
        ensures products { OnOk result (AreProducts f VARS quotient.now divisor.now
            (heap_items self.new.heap) self.new.waiting.items) }
        ensures none { IfOk result (λ r. IfNone r (
            products_left f quotient.now divisor.now (heap_items self.old.heap) ≡ [])) }
        ensures some { IfOk result (λ r. IfSome r (λ t. IsPermutation
            (products_left f quotient.now divisor.now (heap_items self.old.heap))
            (t ∷ products_left f quotient.now divisor.now (heap_items self.new.heap)))) }
        ensures most { IfOk result (λ r. IfSome r (λ t. All (λ u. IsAtMost t.0 u.0)
            (products_left f quotient.now divisor.now (heap_items self.old.heap)))) }
    {
        match self.heap.pop() {
            None => Ok(None),
            Some(entry) => Ok(Some((entry.0, self.take_entry(f, entry, quotient, divisor)?))),
        }
    }

    /// Takes the first product of an entry that was in the heap, and gives its coefficient. What
    /// the entry stands for besides goes back into the heap; where there is none, it waits.
    fn take_entry(
        &mut self,
        f: Field,
        entry: (Mono, u32, u32),
        quotient: &[(Mono, u32)],
        divisor: &[(Mono, u32)],
    ) -> Result<u32, AllocError>
        requires order { IsHeap entry_order (heap_items self.old.heap) }
        requires products { AreProducts f VARS quotient.now divisor.now
            (entry ∷ heap_items self.old.heap) self.old.waiting.items }
        ensures order { OnOk result (IsHeap entry_order (heap_items self.new.heap)) }
        ensures products { OnOk result (AreProducts f VARS quotient.now divisor.now
            (heap_items self.new.heap) self.new.waiting.items) }
        ensures first { IfOk result (λ c. IsPermutation
            (products_left f quotient.now divisor.now (entry ∷ heap_items self.old.heap))
            (term entry.0 c
            ∷ products_left f quotient.now divisor.now (heap_items self.new.heap))) }
    {
        let (_, i, j) = entry;
        let left = quotient[i as usize];
        let right = divisor[j as usize];
        let c = f.mul(f.neg(left.1), right.1);
        if i as usize + 1 < quotient.len() {
            let next = quotient[i as usize + 1];
            self.heap.push((next.0.product(right.0), i + 1, j))?;
            Ok(c)
        } else {
            self.waiting.push(j)?;
            Ok(c)
        }
    }

    /// Goes on with the term `t` after those of the quotient: nothing waits any longer.
    fn go_on(
        &mut self,
        f: Field,
        t: (Mono, u32),
        quotient: &[(Mono, u32)],
        divisor: &[(Mono, u32)],
    ) -> Result<(), AllocError>
        requires order { IsHeap entry_order (heap_items self.old.heap) }
        requires products { AreProducts f VARS quotient.now divisor.now
            (heap_items self.old.heap) self.old.waiting.items }
        requires next { IsPolynomial f VARS (quotient.now ++ t ∷ []) }
        requires fit { FitsEach t.0 divisor.now }
        requires few { length quotient.now + 1 < 2 ^ 32 }
        ensures order { OnOk result (IsHeap entry_order (heap_items self.new.heap)) }
        ensures products { OnOk result (AreProducts f VARS (quotient.now ++ t ∷ []) divisor.now
            (heap_items self.new.heap) self.new.waiting.items) }
        ensures moved { OnOk result (IsPermutation
            (products_left f (quotient.now ++ t ∷ []) divisor.now (heap_items self.new.heap))
            (products_left f quotient.now divisor.now (heap_items self.old.heap)
            ++ added_products f t divisor.now)) }
    {
        let (monomial, _) = t;
        let i = quotient.len() as u32;
        while let Some(j) = self.waiting.pop() {
            let right = divisor[j as usize];
            self.heap.push((monomial.product(right.0), i, j))?;
        }
        Ok(())
    }
}
