// The laws of spelling, proved for every token and every list of rows.
ghost use Rattle.py_spelling.specs.Spelling.{RowsReadBack, OnlyBracketsOpen, AllTokensAreSound, GlyphsAreCharacters};

/// Rows whose tokens a text can hold, with balanced brackets and a space wherever two neighbours may not touch, are read back
/// from their text: each as the logical line of its tokens with its column and its line, and no fault. Of the tokens only
/// brackets open or close something. Each token of a text is one that a text can hold. What is between the quotes of a string of
/// characters is characters.
pub fn laws_of_spelling()
    ensures read_back { RowsReadBack }
    ensures brackets { OnlyBracketsOpen }
    ensures sound { AllTokensAreSound }
    ensures characters { GlyphsAreCharacters }
{}
