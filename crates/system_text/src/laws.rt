ghost use Rattle.system_text.specs.Laws.{SpelledSumsAreRead, SpelledNonzeroLinesAreRead, SystemTextsAreRead, WhatIsReadIsASystem};

/// What is read of a line is what the grammar spells.
pub fn spelled_sums_are_read()
    ensures { SpelledSumsAreRead }
{}

/// What is read of a nonzero line is the sum that it spells after its word.
pub fn spelled_nonzero_lines_are_read()
    ensures { SpelledNonzeroLinesAreRead }
{}

/// What is read of a text is the system that the text is.
pub fn system_texts_are_read()
    ensures { SystemTextsAreRead }
{}

/// What is read has a prime, names, and polynomials in the variables that they name.
pub fn what_is_read_is_a_system()
    ensures { WhatIsReadIsASystem }
{}
