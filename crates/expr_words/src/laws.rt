//! What holds of the definitions of tokens: a law, the contract of a function that does nothing.

ghost use Rattle.std.specs.Prelude.{◌≡◌, ◌≤◌, List, ℕ, length};
ghost use Rattle.expr_words.specs.declared.fault.WordFault.{WordFault};
ghost use Rattle.expr_words.specs.declared.token.Token.{Token};
ghost use Rattle.expr_words.specs.Tokens.{Spells, Refuses};
ghost use Rattle.expr_words.specs.declared.token.TheConstants.{MAX_TOKENS};

/// A text has one list of tokens at most.
pub fn tokens_are_unique()
    ensures { (text : List ℕ) (some other : List Token) → Spells text some → Spells text other → some ≡ other }
{}

/// A text with a fault has no tokens, as many as it may have.
pub fn faults_leave_no_tokens()
    ensures { (text : List ℕ) (fault : WordFault) (tokens : List Token) → Refuses text fault → Spells text tokens → length tokens ≤ MAX_TOKENS → ⊥ }
{}
