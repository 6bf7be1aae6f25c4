//! What holds of every text, each law promised by a function that does nothing.
#![tactic(auto, using(crate::proofs::LineLaws::line_laws, crate::proofs::TokenLaws::token_laws))]

ghost use Rattle.text.specs.Laws.{LinesHoldNoEnd, LinesAreTheText, TokensStand, TokensRise, TokensAreAll};

/// No line holds an LF.
pub fn lines_hold_no_end()
    ensures { LinesHoldNoEnd }
{}

/// The lines with an LF after each are the text, or the text with one LF more if it lacks the last.
pub fn lines_are_the_text()
    ensures { LinesAreTheText }
{}

/// Each word stands whole in its line where its byte says.
pub fn tokens_stand()
    ensures { TokensStand }
{}

/// The words come in the order of the line, with a space between two.
pub fn tokens_rise()
    ensures { TokensRise }
{}

/// The words leave out nothing but spaces.
pub fn tokens_are_all()
    ensures { TokensAreAll }
{}
