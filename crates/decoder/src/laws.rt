// What holds of decoding as a whole, each law on the contract of a function.
ghost use Rattle.decoder.specs.Laws.{SameRule, DecodedTextIsWellFormed, WellFormedTextIsKept};

// The whole-stream function is the relation between a stream and its characters.
pub fn rule_stands()
    ensures { SameRule }
{}

// Decoded text is always well-formed UTF-8.
pub fn decoded_text_is_well_formed()
    ensures { DecodedTextIsWellFormed }
{}

// Well-formed text that does not begin with U+FEFF is decoded to itself.
pub fn well_formed_text_is_kept()
    ensures { WellFormedTextIsKept }
{}
