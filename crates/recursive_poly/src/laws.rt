ghost use Rattle.recursive_poly.specs.Laws.{CoefficientsDetermine, CoefficientsAreFree, EachListHasAPolynomial};

/// A polynomial is the sum of its coefficients times the powers of the variable.
pub fn coefficients_determine()
    ensures { CoefficientsDetermine }
{}

/// Coefficients don't have the variable, and the last isn't 0.
pub fn coefficients_are_free()
    ensures { CoefficientsAreFree }
{}

/// Every such list has the coefficients of a polynomial, of which it is the list.
pub fn each_list_has_a_polynomial()
    ensures { EachListHasAPolynomial }
{}
