//! Words and laws on texts, with no code: the lines of a text and the tokens of a line, readers and spellings put
//! together from smaller ones.
#![tactic(auto)]
