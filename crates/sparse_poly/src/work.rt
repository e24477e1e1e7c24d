use field_table::Field;

/// A field, and the width that products have to fit: the greatest product of two numbers of terms.
#[derive(Clone, Copy, Debug)]
pub struct Work {
    /// What the coefficients are taken from.
    pub field: Field,
    /// A product of `a` terms by `b` terms is made only where `a * b` is at most this.
    pub width: u32,
}
