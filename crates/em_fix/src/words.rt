ghost use Rattle.std.specs.Prelude.{◌≡◌, ◌↔◌, IsTrue};
ghost use Rattle.em_fix.specs.Words.{the_words};

use em_base::{List, Text};

fn is_text(word: &Text, text: &str) -> bool
    ensures { IsTrue result ↔ (word.now ≡ text.now) }
{
    word.as_str() == text
}

/// Whether the words are `fix`, `--edition` and `.`.
#[tactic(auto, using(crate::proofs::WordLists::three, crate::proofs::WordLists::each_of_three))]
pub fn are_the_words(words: &List<Text>) -> bool
    ensures { IsTrue result ↔ (words.now ≡ the_words) }
{
    let [command, flag, folder] = words.as_slice() else {
        return false;
    };
    is_text(command, "fix") && is_text(flag, "--edition") && is_text(folder, ".")
}
