ghost use Rattle.impose_rules.specs.Laws.{LeadCasesAreTheUnknown, MemberIsChanged};

/// The lead cases are the leads that aren't known nonzero when their turn comes.
pub fn lead_cases_are_the_unknown()
    ensures { LeadCasesAreTheUnknown }
{}

/// A polynomial at its main variable changes no other member of a triangular set.
pub fn member_is_changed()
    ensures { MemberIsChanged }
{}
