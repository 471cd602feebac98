// What may be found of a text.
use std::alloc::{AllocError, Global};
use yw_base::Bytes;

/// What may be found of a text, by one way to judge: which finding is that of a text, whether it is a yes, and the line that says it.
pub trait Judgement: Sized + Drop {
    ghost use Rattle.std.specs.Prelude.{◌≡◌, ◌+◌, ◌<◌, ◌^◌, ℕ, List, Bool, IfOk, take};

    /// The most bytes of a text that is looked into.
    ghost limit: { ℕ };

    /// What is found of a text.
    ghost is_found: { List ℕ → Self → Type 0 };

    /// Whether it is a yes.
    ghost accepts: { Self → Bool };

    /// The line that says it.
    ghost line: { Self → List ℕ };

    /// The most bytes of a text that is looked into.
    fn limit() -> usize
        ensures is { result ≡ limit }
        ensures small { result < 2 ^ 32 };

    /// What is found of a text, of which so much is given that it shows whether it is too long. An `Err` says that no memory was left.
    fn judge(alloc: Global, bytes: &[u8]) -> Result<Self, AllocError>
        ensures { IfOk result (is_found bytes.now) };

    /// Whether it is a yes.
    fn accepts(&self) -> bool
        ensures { result ≡ accepts self.now };

    /// The line that says it. An `Err` says that no memory was left.
    fn line(&self, alloc: Global) -> Result<Bytes, AllocError>
        ensures { IfOk result (λ said. said ≡ line self.now) };

    /// One thing is found of a text.
    ghost found_once: { (bytes : List ℕ) (finding other : Self) → is_found bytes finding → is_found bytes other → finding ≡ other };

    /// What is found of a front that is longer than what is looked into, or whole, is found of the text.
    ghost found_of_front: { (bytes : List ℕ) (finding : Self) → is_found (take (limit + 1) bytes) finding → is_found bytes finding };
}
