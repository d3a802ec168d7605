// The memory of a chain: places for 8 codes, of which the first `count` are in use.
ghost use Rattle.std.specs.Prelude.{ℕ, ◌<◌, ◌≤◌, slice_index};

// A row of effect codes that events of type `insert` and `remove` edit. An array with a count beside it, since there is no heap.
#[derive(Drop)]
pub struct Chain {
    pub(crate) places: [u8; 8],
    pub(crate) count: usize,
    ghost within: { count ≤ 8 },
    ghost lawful: { ((k : ℕ) → k < count → slice_index places k ≤ 63) },
}
