// Worked examples of the fitting rules; the function's contract is a theorem.
ghost use Rattle.lines.specs.Examples.{Examples};

// Beside four frames of 1,012 octets a packed port fits 38 octets and not 39; a slot port with three frames fits
// 1,012 octets, and with four not one.
pub fn worked_examples()
    ensures { Examples }
{}
