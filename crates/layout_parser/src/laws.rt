//! Laws of readings, in the words of the language.

ghost use Rattle.layout_parser.specs.Laws.{ReadInOrder, InsideTheRegion, EndIsExact, EndsBeforeTheLast, FaultsStandInTheList, EndIsThePlace};

use operator_chain::one_right_tree;

/// What is read is what the tokens from the first up to the end of the reading spell, in order: the node's own tokens, with the
/// parentheses, commas and words that leave no node put back. Each chain in it is read as a right tree, each expression in it ends
/// before the first token that doesn't go on with it, and each junction list where no further bullet follows in its column.
pub fn read_in_order()
    ensures { ReadInOrder }
{
    one_right_tree();
}

/// No token outside the region is used.
pub fn inside_the_region()
    ensures { InsideTheRegion }
{
    one_right_tree();
}

/// A reading ends before the first token that doesn't go on with it.
pub fn end_is_exact()
    ensures { EndIsExact }
{
    one_right_tree();
}

/// In a list that ends with an end token, a reading ends before that token at the latest; it uses a token at least.
pub fn ends_before_the_last()
    ensures { EndsBeforeTheLast }
{
    one_right_tree();
}

/// A fault stands at a token of the list, and is Expected, Precedence, TooDeep or Unsupported.
pub fn faults_stand_in_the_list()
    ensures { FaultsStandInTheList }
{}

/// A reading at a place of a list of tokens is that of the tokens from there on, and leaves those from its end on.
pub fn end_is_the_place()
    ensures { EndIsThePlace }
{
    one_right_tree();
}
