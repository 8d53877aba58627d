// Three things for the three fields of a form.
ghost use Rattle.std.specs.Prelude.{◌≡◌};

/// One thing for each of the three fields, in order.
#[derive(Clone, Copy, PartialEq, Eq)]
pub struct Three<T> {
    pub first: T,
    pub second: T,
    pub third: T,
}

impl<T> Three<T> {
    /// These three, in this order.
    pub fn new(first: T, second: T, third: T) -> Three<T>
        ensures { result ≡ record { first = first; second = second; third = third } }
    {
        Three {
            first,
            second,
            third,
        }
    }
}
