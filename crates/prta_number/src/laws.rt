//! What reading has to do with printing.

ghost use Rattle.prta_number.specs.Decimal.{PrintedNumbersAreRead, ReadNumbersArePrinted};
ghost use Rattle.prta_number.specs.Worked.{WorkedNumbers};

/// A number that is printed in decimal is read as itself.
pub fn printed_numbers_are_read()
    ensures { PrintedNumbersAreRead }
{}

/// A text that is read as a number is that number's decimal.
pub fn read_numbers_are_printed()
    ensures { ReadNumbersArePrinted }
{}

/// Texts that write a number, and texts that don't.
pub fn worked_numbers()
    ensures { WorkedNumbers }
{}
