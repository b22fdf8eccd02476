//! Who says which of the tasks that can be done is done next.
ghost use Rattle.std.specs.Prelude.{◌≡◌};
ghost use Rattle.desk.specs.Orders.{after_pick, pick_of};

/// Picks a place among the tasks that can be done, counted round.
pub trait Picker {
    fn pick(&mut self) -> u64;
}

/// By which numbers tasks are picked.
#[derive(Clone, Copy, Debug, PartialEq, Eq)]
pub enum Order {
    /// By 0 each time: the oldest task first.
    First,
    /// By the greatest number each time, which is the newest task's wherever their count divides 2^64.
    Last,
    /// By random numbers, of which this seed fixes the first.
    Seed(u64),
}

/// What a seed is multiplied by for the next one.
const FACTOR: u64 = 6364136223846793005;

/// What is added then.
const STEP: u64 = 1442695040888963407;

/// The low digits of a seed come round soon, so that so many are left out.
const LEFT_OUT: u32 = 33;

impl Picker for Order {
    fn pick(&mut self) -> u64
        ensures picked { result ≡ pick_of self.old }
        ensures after { self.new ≡ after_pick self.old }
    {
        match self {
            Order::First => 0,
            Order::Last => u64::MAX,
            Order::Seed(seed) => {
                *seed = seed.wrapping_mul(FACTOR).wrapping_add(STEP);
                *seed >> LEFT_OUT
            }
        }
    }
}

/// None picks the oldest task.
impl<P: Picker> Picker for Option<P> {
    fn pick(&mut self) -> u64 {
        match self {
            Some(picker) => picker.pick(),
            None => 0,
        }
    }
}
