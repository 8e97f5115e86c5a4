#![tactic(auto)]
// A place in the bytes and a run of them: what the definitions of specs/ and the code above share.
// From `Cursor` of format/mod.rs; the slice stands beside it.
ghost use Rattle.std.specs.Prelude.{◌≡◌, ◌+◌, ◌<◌, ◌^◌};
ghost use Rattle.grammar.specs.Outcome.{start, advanced};

use refusal::Refusal;

// Where the next byte to be read stands.
#[derive(Clone, Copy)]
pub struct Cursor {
    pub at: usize,
}

// A run of bytes: where it starts and how many they are.
#[derive(Clone, Copy)]
pub struct Span {
    pub start: usize,
    pub size: usize,
}

// What a read answers: what it read and the next place, or why it was refused; a refused one moves nothing.
pub type Read<T> = Result<(T, Cursor), Refusal>;

impl Cursor {
    // The only function that makes a cursor, at 0.
    pub fn new() -> Cursor
        ensures { result ≡ start }
    {
        Cursor { at: 0 }
    }

    // The only one that moves it.
    pub fn advance(self, n: usize) -> Cursor
        requires { self.at + n < 2 ^ 64 }
        ensures { result ≡ advanced self n }
    {
        Cursor { at: self.at + n }
    }
}
