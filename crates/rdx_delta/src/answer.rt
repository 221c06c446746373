// What a host operation answers.
use rdx_term::Term;

/// The answer of a host operation. In contracts it is the reply that `reply_of` gives.
#[derive(Drop)]
pub enum HostAnswer {
    /// The value.
    Value(Term),
    /// The operation takes another number of arguments, or integers where there is something else.
    HostDomain,
    /// A partial result isn't from -2^127 up to 2^127 - 1.
    Overflow,
    /// The divisor is 0.
    DivideByZero,
}
