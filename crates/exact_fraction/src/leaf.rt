/// A part of a whole that was counted in some time: `num` of `den`, and 0 of 0 where nothing was
/// counted.
#[derive(Clone, Copy, Debug, PartialEq, Eq)]
pub struct Leaf {
    pub num: u64,
    pub den: u64,
}
