/// A part in hand, with its place and its value.
#[derive(Drop)]
pub struct InHand<T> {
    pub part: u32,
    pub value: T,
}
