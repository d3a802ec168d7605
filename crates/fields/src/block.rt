// The block that is being read, and what outlives it.
use buffer::Buffer;

// The data, type and id buffers of the block; the last event ID and the reconnection time in milliseconds.
#[derive(Clone, Copy)]
pub struct Fields {
    pub(crate) data: Buffer<513>,
    pub(crate) event_type: Buffer<32>,
    pub(crate) id: Buffer<32>,
    pub(crate) last: Buffer<32>,
    pub(crate) retry: u32,
}
