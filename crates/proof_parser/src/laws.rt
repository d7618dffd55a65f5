//! Laws of readings of modules, in the words of the language.

ghost use Rattle.proof_parser.specs.Laws.{ReadInOrder, FaultsStandInTheList};

use operator_chain::one_right_tree;

/// What is read is what the tokens from the first up to the end token spell, in order: the names that are extended, and the units with
/// rules between them. The steps of a proof have one level, deeper than that of the proof round it, and the last of them and no
/// other is its QED. Each expression ends before the first token that doesn't go on with it.
pub fn read_in_order()
    ensures { ReadInOrder }
{
    one_right_tree();
}

/// A fault stands at a token of the list, and is Expected, Precedence, TooDeep, Unsupported, StepLevel or NoQed.
pub fn faults_stand_in_the_list()
    ensures { FaultsStandInTheList }
{}
