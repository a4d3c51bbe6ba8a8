//! Laws of tokens.

ghost use Rattle.std.specs.Prelude.{◌≡◌, ◌∷◌, ◌++◌, ℕ, ℤ, List};
ghost use Rattle.c62_op.specs.declared.register.Reg.{Reg as Register};
ghost use Rattle.c62_token.specs.Token.{begins, tokens};
ghost use Rattle.c62_token.specs.Laws.{TokensAreTheBytes, HasLongestTokens, NumberReadsBack, RegisterReadsBack};

/// The tokens of a line are its bytes in their order, less blanks and what follows a `;`.
#[tactic(auto, using(crate::proofs::TokenLemmas::tokens_are_bytes))]
pub fn tokens_are_the_bytes()
    ensures { (line : List ℕ) → TokensAreTheBytes line }
{}

/// A line begins with a blank, with a comment, or with a token, which is the longest that fits: no more of the line may be
/// one. What is behind it has the other tokens.
#[tactic(auto, using(crate::proofs::TokenLaws::longest_tokens))]
pub fn tokens_are_the_longest()
    ensures { (line : List ℕ) → HasLongestTokens line }
{}

/// What stands behind a `;` says nothing.
#[tactic(auto, using(crate::proofs::TokenLaws::tokens_before_comment))]
pub fn comments_say_nothing()
    ensures { (line rest : List ℕ) → tokens (line ++ 59 ∷ rest) ≡ tokens line }
{}

/// Each number that a line may hold reads back from its decimal spelling.
#[tactic(auto, using(crate::proofs::SpelledNumbers::number_back))]
pub fn numbers_read_back()
    ensures { (k : ℤ) → NumberReadsBack k }
{}

/// Each register reads back from its name.
#[tactic(auto, using(crate::proofs::SpelledNumbers::register_back))]
pub fn registers_read_back()
    ensures { (reg : Register) → RegisterReadsBack reg }
{}
