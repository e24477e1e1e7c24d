use pseudo_division::Row;
use sparse_poly::Polys;

/// Row k, the last of remainder rows, and the leads of row 1 to row k.
#[derive(Drop)]
pub struct RowEnds {
    pub last: Row,
    pub leads: Polys,
}

/// How remainder rows end. Of the rows only the last one is kept.
#[derive(Drop)]
pub enum Remainders {
    /// The last row has degree 0.
    Coprime(RowEnds),
    /// The row that would follow, which comes second, has the first entry 0.
    Common(RowEnds, Row),
    /// A product doesn't fit the width.
    TooWide,
}
