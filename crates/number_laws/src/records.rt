//! Laws of the numbers of records.

ghost use Rattle.def_grammar.specs.Records.{def};
ghost use Rattle.lef_grammar.specs.LefRecords.{lef};
ghost use Rattle.number_laws.specs.NumberLaws.{DefNumbersPass, LefNumbersPass, NoNumberIsBad, NoneIsLeftOut};
ghost use Rattle.number_laws.specs.LefNumbers.{LefRecordNumbers};
ghost use Rattle.number_laws.specs.RecordNumbers.{RecordNumbers};
ghost use Rattle.number_laws.specs.TestLaws.{PassedAreNumbers};

/// No record of a DEF text that reads has a bad number.
pub fn no_def_number_is_bad()
    ensures { NoNumberIsBad def }
{}

/// No record of a LEF text that reads has a bad number.
pub fn no_lef_number_is_bad()
    ensures { NoNumberIsBad lef }
{}

/// The numbers of each record of a DEF text that reads pass the tests of its form.
pub fn def_numbers_pass()
    ensures { DefNumbersPass }
{}

/// The numbers of each record of a LEF text that reads pass the tests of its form.
pub fn lef_numbers_pass()
    ensures { LefNumbersPass }
{}

/// A record of DEF whose numbers pass these tests has no bad number.
pub fn no_def_number_is_left_out()
    ensures { NoneIsLeftOut def RecordNumbers }
{}

/// A record of LEF whose numbers pass these tests has no bad number.
pub fn no_lef_number_is_left_out()
    ensures { NoneIsLeftOut lef LefRecordNumbers }
{}

/// A word that passes a test of numbers is a number.
pub fn passed_are_numbers()
    ensures { PassedAreNumbers }
{}
