//! Laws of the definitions that contracts on code cite. They do nothing when they are called.
ghost use Rattle.hilti_code.specs.Rows.{StandsAtEachPlace};

/// At each place of a program's code stands the row of the instruction that the program has there.
pub fn rows_stand_at_each_place()
    ensures { StandsAtEachPlace }
{}
