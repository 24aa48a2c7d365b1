// What the answers of all layers share: the refusal in one, and what a call by value gives back.
ghost use Rattle.std.specs.Prelude.{◌≡◌};
ghost use Rattle.refusal.specs.Said.{refusal_in};

use crate::Refusal;

// Why it was refused; 20 where it was not. For the `else` of a `let .. else`, which cannot bind.
pub fn refusal_of<T: Drop>(answer: Result<T, Refusal>) -> Refusal
    ensures { result ≡ refusal_in answer }
{
    match answer {
        Ok(_) => Refusal::NothingThere,
        Err(refusal) => refusal,
    }
}

// What a call by value gives back: its answer, and the cursor or the stream as it stands then.
#[derive(Clone, Copy)]
pub struct Step<T, S> {
    pub answer: Result<T, Refusal>,
    pub after: S,
}
