ghost use Rattle.finish_laws.specs.Laws.{CompositionsFit, ChecksDecide, RegularisingLosesNoZero, RegularisingCertifies, RegularisingKeepsLaw, CertifiedLosesNoZero, CertifiedCertifies, CertifiedKeepsLaw};

/// A composition within a width is the composition.
pub fn compositions_fit()
    ensures { CompositionsFit }
{}

/// The test of a certificate decides whether it is one.
pub fn checks_decide()
    ensures { ChecksDecide }
{}

/// At a point of the quasi-component one of the polynomials vanishes that an initial gives way to.
pub fn regularising_loses_no_zero()
    ensures { RegularisingLosesNoZero }
{}

/// What comes of an initial certifies it.
pub fn regularising_certifies()
    ensures { RegularisingCertifies }
{}

/// In a lawful chain certificates are lawful, and so is what an initial gives way to.
pub fn regularising_keeps_law()
    ensures { RegularisingKeepsLaw }
{}

/// So it is with the initials of a whole chain: no zero is lost.
pub fn certified_loses_no_zero()
    ensures { CertifiedLosesNoZero }
{}

/// There is one certificate for each initial that isn't constant, and no other.
pub fn certified_certifies()
    ensures { CertifiedCertifies }
{}

/// All of it is lawful.
pub fn certified_keeps_law()
    ensures { CertifiedKeepsLaw }
{}
