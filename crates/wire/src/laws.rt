// What holds of all that a sender sends, each law on the contract of a function.
ghost use Rattle.wire.specs.Laws.{AStreamMeansWhatWasSent, WhatWasSentGivesItsEvents, ASinkIsOfferedWhatBytesGive, WhatWasSentIsRead};
ghost use Rattle.wire.specs.Worked.{WorkedCases};

use sink::Sink;

// A fresh stream of what was sent is, by the standard, exactly the events sent, in order; comments and times between them add none.
pub fn a_stream_means_what_was_sent()
    ensures { AStreamMeansWhatWasSent }
{}

// Without a sink: from every block boundary on, what was sent gives exactly its events, and ends at a block boundary.
pub fn what_was_sent_gives_its_events()
    ensures { WhatWasSentGivesItsEvents }
{}

// Whatever the bytes, unless they pass a limit: a sink is offered the events that they give, in order, up to the first that it refuses.
pub fn a_sink_is_offered_what_bytes_give<S: Sink>(_sink: &S)
    ensures { ASinkIsOfferedWhatBytesGive S.Sink.refusal S.Sink.after }
{}

// From every block boundary on, a sink is offered exactly the events sent, in order, up to the first that it refuses.
pub fn what_was_sent_is_read<S: Sink>(_sink: &S)
    ensures { WhatWasSentIsRead S.Sink.refusal S.Sink.after }
{}

// Worked cases of numbering, decoding, reading and writing.
pub fn worked_cases()
    ensures { WorkedCases }
{}
