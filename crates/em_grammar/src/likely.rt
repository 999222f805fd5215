//! Which one word a text can be, by a number that tells the words apart.

ghost use Rattle.std.specs.Prelude.{◌≡◌, ◌↔◌, ◌<◌, ◌≤◌, true, length, get_or, IsTrue, Some};
ghost use Rattle.std.specs.Str.{bytes_eq};
ghost use Rattle.em_base.specs.declared.edition.Edition.{Edition};
ghost use Rattle.em_base.specs.declared.words.Class.TheVariants as class;
ghost use Rattle.em_base.specs.Words as words;
ghost use Rattle.em_grammar.specs.Sorts.{text_of, weak_of};
ghost use Rattle.em_grammar.specs.declared.sort.Weak.{Weak};
ghost use Rattle.em_grammar.specs.declared.sort.Written.{Written};
ghost use Rattle.em_grammar.specs.Likely.{number_of};

use crate::sort::Written as W;

const NO: W = W::Not;

/// The words and signs of the grammar, each at the rest of its number by 256; `!` where there is none.
#[rattlefmt::skip]
static LIKELY: [W; 256] = [
    NO, NO, NO, NO, W::Star, W::Crate, W::DotDotEq, NO, NO, W::Struct, NO, NO, NO, NO, NO, W::Const, NO, NO, W::Le,
    NO, W::Colon, NO, W::Or, NO, NO, W::Underscore, NO, NO, NO, NO, NO, W::Percent, NO, NO, NO, NO, NO, NO, NO,
    W::Minus, NO, W::Enum, NO, NO, NO, NO, W::PathSep, W::Use, W::OrOr, NO, W::Trait, W::Super, NO, NO, NO, W::Eq,
    NO, NO, NO, NO, NO, NO, NO, NO, NO, NO, W::OpenParen, W::Extern, W::For, NO, NO, NO, NO, NO, NO, NO, NO,
    W::Move, NO, NO, NO, W::EqEq, NO, NO, NO, W::Match, W::False, W::CloseBracket, NO, W::As, W::At, NO, NO,
    W::Pound, NO, W::Continue, NO, W::MinusEq, NO, NO, NO, W::Plus, NO, NO, NO, W::PercentEq, NO, NO, NO, W::Ne, NO,
    NO, W::CaretEq, NO, NO, W::FatArrow, NO, W::Semi, W::Return, W::CloseBrace, W::ShlEq, NO, W::Let, NO, NO, NO,
    NO, NO, W::And, NO, W::Break, W::RArrow, W::DotDotDot, NO, NO, NO, W::Dot, NO, NO, NO, NO, NO, NO, NO, W::Ge,
    W::SelfValue, NO, NO, NO, W::OpenBracket, NO, W::If, W::Gt, NO, W::AndAnd, W::Not, NO, NO, W::Type, NO, NO,
    W::Else, W::DotDot, W::CloseParen, W::StarEq, NO, NO, W::In, W::AndEq, NO, NO, NO, NO, NO, NO, NO, NO,
    W::SelfType, W::Shr, NO, NO, W::OpenBrace, NO, NO, W::Caret, W::Mut, NO, NO, NO, NO, W::Dollar, NO, NO, NO, NO,
    NO, NO, W::Unsafe, W::Comma, NO, NO, NO, W::True, W::Static, NO, NO, NO, NO, W::Ref, W::While, W::OrEq, NO, NO,
    NO, W::Lt, W::Impl, W::Tilde, W::Mod, W::Pub, NO, NO, NO, NO, W::SlashEq, W::Loop, W::Where, NO, W::PlusEq, NO,
    NO, NO, NO, NO, W::Slash, W::Fn, NO, NO, NO, NO, NO, W::Shl, NO, W::LArrow, NO, NO, NO, W::ShrEq, NO, NO,
    W::Question, NO, NO, NO, NO, NO, NO,
];

/// The number of each of these, at the same place, and 0 where there is none.
#[rattlefmt::skip]
static NUMBERS: [usize; 256] = [
    0, 0, 0, 0, 4100, 15621, 8710, 0, 0, 18185, 0, 0, 0, 0, 0, 16911, 0, 0, 5906, 0, 5652, 0, 12054, 0, 0, 9241,
    0, 0, 0, 0, 0, 3615, 0, 0, 0, 0, 0, 0, 0, 4391, 0, 17193, 0, 0, 0, 0, 5678, 16943, 12080, 0, 17202, 17971,
    0, 0, 0, 5943, 0, 0, 0, 0, 0, 0, 0, 0, 0, 0, 3906, 17219, 17220, 0, 0, 0, 0, 0, 0, 0, 0, 17485, 0, 0, 0,
    5969, 0, 0, 0, 17493, 16470, 9047, 0, 10073, 6234, 0, 0, 3421, 0, 16479, 0, 4961, 0, 0, 0, 4197, 0, 0, 0,
    4457, 0, 0, 0, 4205, 0, 0, 8048, 0, 0, 6003, 0, 5749, 18038, 12151, 9592, 0, 17786, 0, 0, 0, 0, 0, 3712, 0,
    16002, 4995, 7300, 0, 0, 0, 4488, 0, 0, 0, 0, 0, 0, 0, 6032, 17297, 0, 0, 0, 8853, 0, 10135, 6040, 0, 3738,
    3227, 0, 0, 17566, 0, 0, 16801, 4514, 4003, 4772, 0, 0, 10407, 4520, 0, 0, 0, 0, 0, 0, 0, 0, 15281, 6066, 0,
    0, 11957, 0, 0, 9144, 17849, 0, 0, 0, 0, 3518, 0, 0, 0, 0, 0, 0, 17861, 4294, 0, 0, 0, 17866, 16587, 0, 0,
    0, 0, 16848, 17361, 9938, 0, 0, 0, 5846, 17111, 12248, 16345, 16346, 0, 0, 0, 0, 5087, 17376, 17121, 0,
    4835, 0, 0, 0, 0, 0, 4585, 10218, 0, 0, 0, 0, 0, 5872, 0, 5362, 0, 0, 0, 9718, 0, 0, 6137, 0, 0, 0, 0, 0, 0,
];

/// The keywords of all editions, each as its number times 256 and its second byte, at the number's rest by 284; 0 where
/// there is none.
#[rattlefmt::skip]
static KEYWORDS: [usize; 284] = [
    0, 3999090, 0, 0, 0, 0, 0, 4218735, 0, 4655476, 0, 0, 0, 0, 0, 0, 4802674, 0, 0, 0, 0, 0, 0, 0, 0, 0, 0, 0,
    0, 0, 0, 0, 0, 0, 0, 0, 0, 4444520, 0, 0, 0, 0, 0, 0, 4519033, 4301164, 0, 0, 0, 0, 0, 0, 4448367, 0, 0, 0,
    0, 0, 0, 0, 0, 0, 0, 0, 0, 0, 0, 0, 0, 0, 0, 4380525, 4308073, 0, 0, 0, 0, 0, 0, 4600693, 0, 4383080, 0, 0,
    4020325, 0, 0, 0, 0, 0, 0, 0, 4313189, 0, 0, 0, 0, 0, 4096626, 0, 0, 4097399, 0, 0, 0, 0, 0, 0, 0, 0, 0,
    4318067, 0, 0, 0, 4246388, 0, 0, 0, 0, 0, 0, 0, 4393826, 0, 0, 0, 0, 0, 0, 0, 0, 0, 2578803, 0, 0, 0, 0, 0,
    0, 0, 0, 0, 0, 0, 0, 4617829, 0, 4472946, 0, 0, 0, 0, 4401518, 0, 4329327, 0, 4184431, 4184693, 0, 0,
    4476271, 4403826, 0, 0, 0, 0, 0, 0, 4478305, 0, 0, 0, 4406633, 0, 0, 0, 0, 4553317, 4408184, 4408431, 0, 0,
    2664302, 0, 0, 2592367, 4337523, 0, 0, 0, 0, 0, 0, 0, 2594662, 0, 0, 0, 0, 0, 0, 0, 0, 0, 0, 0, 0, 4488303,
    0, 0, 0, 0, 0, 0, 0, 0, 0, 0, 0, 0, 0, 0, 4274038, 0, 0, 0, 0, 0, 3912037, 0, 0, 0, 0, 0, 0, 4640873, 0, 0,
    4278113, 0, 4569461, 4497017, 0, 0, 4570478, 4279929, 0, 0, 0, 0, 0, 0, 4572526, 0, 0, 0, 4428133, 4573810,
    0, 0, 0, 0, 0, 0, 0, 0, 0, 0, 0, 0, 0, 0, 0, 0, 0, 0, 0, 2615918, 0, 0, 0, 4216417, 0,
];

/// The byte, or 0 behind the end.
fn byte_at(text: &[u8], index: usize) -> usize
    ensures is { result ≡ get_or text.now index 0 }
    ensures byte { result < 256 }
{
    match text.get(index) {
        Some(byte) => usize::from(*byte),
        None => 0,
    }
}

/// A number that no two words and signs of the grammar have in common.
fn number_of(text: &[u8]) -> usize
    requires { (0 < length text.now) × (length text.now ≤ 8) }
    ensures is { result ≡ number_of text.now }
    ensures small { result < 65536 }
{
    let last = byte_at(text, text.len() - 1);
    byte_at(text, 0) * 63 + byte_at(text, 2) * 60 + last * 34 + text.len() * 26
}

/// Whether no word of the tables is longer, and the text isn't empty.
fn is_short(text: &str) -> bool
    ensures { IsTrue result ↔ ((0 < length text.now) × (length text.now ≤ 8)) }
{
    !text.is_empty() && text.len() <= 8
}

/// The only word or sign of the grammar that the text can be.
pub fn likely(text: &str) -> Option<W>
    ensures { (x : Written) → text_of x ≡ text.now → result ≡ Some x }
{
    if !is_short(text) {
        return None;
    }
    let number = number_of(text.as_bytes());
    if NUMBERS[number % 256] == number {
        Some(LIKELY[number % 256])
    } else {
        None
    }
}

/// Whether the text may be a keyword of some edition: each keyword may be one, and few other texts.
pub fn may_be_keyword(text: &str) -> bool
    ensures { (edition : Edition) → words.class_of edition text.now ≡ class.Keyword → result ≡ true }
{
    if !is_short(text) {
        return false;
    }
    let bytes = text.as_bytes();
    let number = number_of(bytes);
    KEYWORDS[number % 284] == number * 256 + byte_at(bytes, 1)
}

/// Whether the texts are the same. Their bytes are read only where they are equally long.
#[tactic(auto, using(crate::proofs::SameSign::lengths_apart))]
pub fn is_same(wanted: &str, text: &str) -> bool
    ensures { result ≡ bytes_eq wanted.now text.now }
{
    wanted.len() == text.len() && wanted == text
}

/// Whether the text is as long as a word that is a keyword in some places alone, and begins like one.
#[tactic(auto, using(crate::proofs::WeakWords::weak_like))]
pub fn may_be_weak(text: &str) -> bool
    ensures { (x : Weak) → weak_of text.now ≡ Some x → result ≡ true }
{
    let first = byte_at(text.as_bytes(), 0);
    (text.len() == 3 || text.len() == 11) && (first == 66 || first == 100 || first == 109)
}
