//! In which order the nodes of a level are asked.
ghost use Rattle.std.specs.Prelude.{◌<◌};

/// In which order the nodes of a level are asked.
#[derive(Clone, Copy, Drop)]
pub(crate) enum Order {
    FromLeft,
    FromRight,
    /// By chance, from this number on, which is not 0.
    ByChance(u64),
}

impl Order {
    /// Which of so many nodes is asked next, counted from the left.
    pub(crate) fn next(&mut self, pending: usize) -> usize
        requires { 0 < pending }
        ensures { result < pending }
    {
        match self {
            Order::FromLeft => 0,
            Order::FromRight => pending - 1,
            Order::ByChance(number) => {
                *number = shuffled(*number);
                (*number % pending as u64) as usize
            }
        }
    }
}

/// The next number of chance.
fn shuffled(number: u64) -> u64 {
    let one = number ^ (number << 13);
    let two = one ^ (one >> 7);
    two ^ (two << 17)
}
