mod deciding;
mod matching;
mod one_piece;
mod texts;
