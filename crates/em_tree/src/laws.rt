ghost use Rattle.em_tree.specs.Examples.{EmptyFunction, NoProductOfSum, SumOfProduct};
ghost use Rattle.em_tree.specs.Laws.{BlockHasBody, EmptyFile, NodeIsOpened, WordIsFragment};

/// A file may have nothing in it.
#[tactic(auto, using(crate::proofs::GrammarLaws::empty_file_is_one))]
pub fn empty_file_is_one()
    ensures { EmptyFile }
{}

/// A word is a fragment of the kind `ident`.
pub fn word_is_fragment()
    ensures { WordIsFragment }
{}

/// What a block of the grammar has between its braces is of the grammar too.
#[tactic(auto, using(crate::proofs::GrammarLaws::block_has_body))]
pub fn block_has_body()
    ensures { BlockHasBody }
{}

/// `fn a() {}` is an item of the grammar, and its pieces are these six tokens.
pub fn empty_function_is_item()
    ensures { EmptyFunction }
{}

/// `a + b * c` is an expression of the grammar with the product on the right, and never with the sum on the left.
pub fn product_binds_before_sum()
    ensures product { SumOfProduct }
    ensures sum { NoProductOfSum }
{}

/// The tokens of a tree of the grammar are its pieces with each fragment opened.
pub fn tokens_are_opened_pieces()
    ensures { NodeIsOpened }
{}
