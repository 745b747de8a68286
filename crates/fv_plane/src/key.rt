// A frame by its place among the frames of several clips.

/// Frame `n` of the clip with the number `node`.
#[derive(Clone, Copy, Debug, PartialEq, Eq, Hash)]
pub struct Key {
    pub node: u32,
    pub n: u32,
}
