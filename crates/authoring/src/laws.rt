// What holds of writing lines, as the contract of a function.
ghost use Rattle.authoring.specs.Laws.{WhatLinesSayIsRead};

use numbering::Numbering;

// The stream that is written for lines is read, by the standard, as exactly the events that they say, numbered from 1 on.
pub fn what_lines_say_is_read<N: Numbering>(_numbering: &N)
    ensures { WhatLinesSayIsRead N.Numbering.GREATEST N.Numbering.text }
{}
