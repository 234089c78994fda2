// Laws of the definition of tokens, proved for every text.
ghost use Rattle.std.specs.Prelude.{◌≡◌, ◌+◌, ℕ, List};
ghost use Rattle.std.specs.List.{concat};
ghost use Rattle.py_language.specs.Tokens.{tokens_of};
ghost use Rattle.py_language.specs.TokensCharacters.{lines_of};
ghost use Rattle.py_language.specs.TokensLines.{line_feeds};
ghost use Rattle.py_language.specs.TokensPieces.{pieces_of};
ghost use Rattle.py_language.specs.TokensLaws.{IsCut, InOrder};

/// A text is cut in one way alone, and the pieces joined are the text. Each logical line has the number of a line of the
/// text, and the numbers ascend.
pub fn laws_of_tokens()
    ensures cut { (text : List ℕ) → IsCut (pieces_of text) text }
    ensures one_way { (text : List ℕ) (pieces others : List (List ℕ)) → IsCut pieces text → IsCut others text
        → pieces ≡ others }
    ensures joined { (text : List ℕ) → concat (pieces_of text) ≡ text }
    ensures numbered { (text : List ℕ) → InOrder 1 (1 + line_feeds (lines_of text)) (tokens_of text).lines }
{}
