use ca_base::PlacedReceive;

/// The receive of a SEND packet, how many bytes came into it before, and whether the packet takes it.
#[derive(Drop)]
pub struct Receiving {
    pub receive: PlacedReceive,
    pub before: u32,
    pub taken: bool,
}
