/// In which order events are noted.
#[derive(Clone, Copy, Debug)]
pub(crate) enum Order {
    /// None is, which shows what it takes to make them.
    Neither,
    /// In path order.
    Forward,
    /// The last first.
    Reverse,
}

impl Order {
    pub(crate) fn name(self) -> &'static str {
        match self {
            Order::Neither => "neither",
            Order::Forward => "forward",
            Order::Reverse => "reverse",
        }
    }
}
