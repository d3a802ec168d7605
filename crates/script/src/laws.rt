// What holds of quoted text, written and read.
ghost use Rattle.script.specs.Laws.{WhatIsQuotedIsReadBack};

// What is written between quotes is read back.
pub fn what_is_quoted_is_read_back()
    ensures { WhatIsQuotedIsReadBack }
{}
