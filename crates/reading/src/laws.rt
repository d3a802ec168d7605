// What holds of reading as a whole, each law on the contract of a function.
ghost use Rattle.reading.specs.Laws.{LineEndsMayBeExchanged, UnfinishedBlocksAreDropped, WithoutABlankLineNothingIsKept, AFirstMarkIsDropped, AStreamHasOneOutcome};

use sink::Sink;

// The same lines with LF, CR LF or CR mean the same.
pub fn line_ends_may_be_exchanged()
    ensures { LineEndsMayBeExchanged }
{}

// A block that no blank line ends is dropped.
pub fn unfinished_blocks_are_dropped()
    ensures { UnfinishedBlocksAreDropped }
{}

// A stream without a blank line keeps nothing.
pub fn without_a_blank_line_nothing_is_kept()
    ensures { WithoutABlankLineNothingIsKept }
{}

// U+FEFF at the start of a stream is passed over.
pub fn a_first_mark_is_dropped()
    ensures { AFirstMarkIsDropped }
{}

// The standard and the limits leave a stream one outcome, over every sink.
pub fn a_stream_has_one_outcome<S: Sink>(_sink: &S)
    ensures { AStreamHasOneOutcome S.Sink.refusal S.Sink.after }
{}
