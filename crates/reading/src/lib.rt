// Reading as the standard has it: what the reader makes of a whole stream, in whatever pieces it comes.

#![tactic(auto)]

mod laws;
mod pieces;

pub use laws::{
    a_first_mark_is_dropped, a_stream_has_one_outcome, line_ends_may_be_exchanged,
    unfinished_blocks_are_dropped, without_a_blank_line_nothing_is_kept,
};
pub use pieces::{read_on, read_pieces};
