// Finite fields, and the codes over them that are zero at powers of alpha in a row: definitions and theorems.
#![tactic(auto)]

ghost use Rattle.coding_theory.specs.Code.{LightIsZero, MinimumDistance, UniqueChecks, ValueIsSum};
ghost use Rattle.coding_theory.specs.Field.{Lawful};
ghost use Rattle.coding_theory.specs.Misaligned.{EarlyWindows, LateWindows};
ghost use Rattle.coding_theory.specs.Galois.{bytes, galois};

// The bytes modulo x^8 + x^4 + x^3 + x^2 + 1, and the seven-bit numbers modulo x^7 + x^3 + 1, are fields.
pub fn fields_are_lawful()
    ensures bytes { Lawful bytes }
    ensures seven_bits { Lawful (galois 7 137) }
{}

// Horner's rule gives the value of a polynomial, over every lawful field.
pub fn value_is_a_sum()
    ensures { ValueIsSum }
{}

// Code words of one length differ at more places than the code has powers, over every lawful field.
pub fn words_are_apart()
    ensures apart { MinimumDistance }
    ensures light { LightIsZero }
    ensures checks { UniqueChecks }
{}

// Words read a few symbols late or early are never taken for the words that were sent, over every lawful field.
pub fn misaligned_words_are_told()
    ensures late { LateWindows }
    ensures early { EarlyWindows }
{}
