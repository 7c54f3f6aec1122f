use router_step::Refusal;

/// How a flight ended in a run, with the number of its turns there.
#[derive(Clone, Copy, Debug, PartialEq, Eq)]
pub enum End {
    /// It was delivered.
    Delivered(u32),
    /// A router refused it.
    Refused(Refusal, u32),
    /// Its next inbox was full.
    Dropped(u32),
}
