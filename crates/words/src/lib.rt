// The words that every part of this library is written in: definitions in specs/, their laws in proofs/. Code has only
// the number of a refusal.
#![tactic(auto)]

ghost use Rattle.std.specs.Prelude.{◌≡◌, ℕ};
ghost use Rattle.words.specs.Words.{number_of_answer};

// Why a call refuses: the number that this library gives for it (RULES 2.1).
pub trait Refusal {
    ghost number: { Self → ℕ };

    // The number of the refusal; 0 where there is none.
    fn refusal(self) -> u8
        ensures { result ≡ number self };
}

// What a call answers, or why it refuses.
impl<T: Copy, E: Refusal + Copy> Refusal for Result<T, E> {
    ghost number = { number_of_answer E.number };

    fn refusal(self) -> u8 {
        match self {
            Ok(_) => 0,
            Err(why) => why.refusal(),
        }
    }
}
