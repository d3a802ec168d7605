// A sink's refusal: a number of the sink's own, never 0. It is no enum of causes, since whoever writes a sink brings causes of his own.
#[derive(Clone, Copy, Debug, PartialEq)]
pub struct SinkFault {
    pub number: u32,
}
