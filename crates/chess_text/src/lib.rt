#![tactic(auto)]

ghost use Rattle.chess_text.specs.Grammar.{SameTexts};
ghost use Rattle.chess_text.specs.Samples.{Samples};

mod letters;
mod reader;
mod reading;

pub use reading::read;

/// The texts of diagrams are the texts of the grammar.
pub fn grammar_stands()
    ensures { SameTexts }
{}

/// Worked texts are read as they should be.
pub fn samples_stand()
    ensures { Samples }
{}
