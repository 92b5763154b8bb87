//! What is asked of an object that threads share.
ghost use Rattle.std.specs.Prelude.{◌≡◌, ℕ, ◌++◌, List, [], ◌∷◌, OnOk, IfOk, Bool, true};

use crate::no_memory::NoMemory;

/// An object of one thread. Each call steps it once, and leaves an entry.
pub trait OneThread: Drop {
    type Call: Drop;

    type Reply: Copy;

    type Entry: Drop;

    /// What an entry keeps of its call.
    type Kept;

    // The object stands for the history: it is as the calls of these entries have left it.
    ghost stands: { Self → List Self.Entry → Type 0 };

    // The entry of a call that is made after the history, at this number and by this caller.
    ghost gives: { List Self.Entry → ℕ → ℕ → Self.Call → Self.Entry };

    // There is room for one step.
    ghost has_room: { Self → Bool };

    ghost number_of: { Self.Entry → ℕ };

    ghost by_of: { Self.Entry → ℕ };

    ghost kept_of: { Self.Entry → Self.Kept };

    ghost kept: { Self.Call → Self.Kept };

    ghost reply: { Self.Entry → Self.Reply };

    /// Takes the memory of one step. It changes nothing but the room.
    fn reserve(&mut self) -> Result<(), NoMemory>
        ensures same { (h : List Self.Entry) → stands self.old h → stands self.new h }
        ensures room { OnOk result (has_room self.new ≡ true) };

    /// The call's entry. It takes no memory.
    fn step(&mut self, number: u32, by: u32, call: Self::Call) -> Self::Entry
        requires { has_room self.old ≡ true }
        ensures entry { (h : List Self.Entry) → stands self.old h → result ≡ gives h number by call }
        ensures stands { (h : List Self.Entry) → stands self.old h → stands self.new (h ++ result ∷ []) };

    /// The reply that the entry's caller got.
    fn reply_of(entry: &Self::Entry) -> Self::Reply
        ensures { result ≡ reply entry.now };

    fn copy(entry: &Self::Entry) -> Result<Self::Entry, NoMemory>
        ensures { IfOk result (λ e. e ≡ entry.now) };

    // An entry keeps its number, its caller and its call.
    ghost keeps: { (h : List Self.Entry) (number by : ℕ) (call : Self.Call) → (number_of (gives h number by call) ≡ number) × (by_of (gives h number by call) ≡ by) × (kept_of (gives h number by call) ≡ kept call) };
}
