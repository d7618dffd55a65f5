//! What a step does.

ghost use Rattle.std.specs.Prelude.{◌≡◌};
ghost use Rattle.token_reader.specs.Input as input;
ghost use Rattle.tla_ast.specs.Answers.{Reads};
ghost use Rattle.proof_parser.specs.Modules as spec;

use crate::clause::Clauses;
use crate::name::{begins_definition, outside};
use sqlite_items::Items;
use tla_ast::{Fault, Node, StepKind};
use token_reader::{Cursor, Mark, Stop};

/// Whether a step of this kind may have a proof.
pub fn has_proof(kind: &StepKind) -> bool
    ensures { result ≡ spec.has_proof kind.now }
{
    matches!(
        kind,
        StepKind::Assert(_)
            | StepKind::Case(_)
            | StepKind::Suffices(_)
            | StepKind::Pick(_, _)
            | StepKind::Qed
    )
}

/// Whether the step ends its proof.
pub fn is_qed(kind: &StepKind) -> bool
    ensures { result ≡ spec.is_qed kind.now }
{
    matches!(kind, StepKind::Qed)
}

impl Clauses {
    /// PICK, after that word.
    #[tactic(auto, unfolding(crate::specs::Modules::pick))]
    fn pick(self, cursor: &mut Cursor<'_>) -> Result<StepKind, Fault>
        ensures { Reads (spec.pick self.nestings cursor.old) result cursor.new }
    {
        let groups = self.taken(cursor)?;
        cursor.expect(self.alloc, outside(), Stop::Other, Mark::Colon)?;
        let body = self.last_expression(cursor)?;
        Ok(StepKind::Pick(groups, body))
    }

    /// The expressions of WITNESS.
    #[tactic(auto, using(token_reader::proofs::Turns::turn), unfolding(token_reader::specs::Lists::gathered, token_reader::specs::Lists::gathered_from, crate::specs::Modules::witnesses))]
    fn witnesses(self, cursor: &mut Cursor<'_>) -> Result<Items<Node>, Fault>
        ensures { Reads (spec.witnesses self.nestings cursor.old) result cursor.new }
    {
        let mut found = Items::new(self.alloc);
        for _turn in 0..cursor.left() {
            found.push(self.last_expression(cursor)?)?;
            if !cursor.eat(outside(), Mark::Comma) {
                return Ok(found);
            }
        }
        Err(cursor.exhausted())
    }

    /// A statement that is asserted.
    #[tactic(auto, unfolding(crate::specs::Modules::assertion))]
    fn assertion(self, cursor: &mut Cursor<'_>) -> Result<StepKind, Fault>
        ensures { Reads (spec.assertion self.nestings cursor.old) result cursor.new }
    {
        Ok(StepKind::Assert(self.statement(cursor, true)?))
    }

    /// A step whose first token is a name: definitions without DEFINE, or an assertion.
    #[tactic(auto, unfolding(crate::specs::Modules::name_step))]
    fn name_step(self, cursor: &mut Cursor<'_>) -> Result<StepKind, Fault>
        ensures { Reads (spec.name_step self.nestings cursor.old) result cursor.new }
    {
        if begins_definition(self.alloc, cursor)? {
            Ok(StepKind::Define(self.definitions(cursor)?))
        } else {
            self.assertion(cursor)
        }
    }

    /// What follows the word with which a step begins.
    #[tactic(auto, unfolding(crate::specs::Modules::uses))]
    fn after_word(self, cursor: &mut Cursor<'_>, word: Mark) -> Result<StepKind, Fault>
        ensures { Reads (spec.after_word self.nestings word cursor.old) result cursor.new }
    {
        match word {
            Mark::Case => Ok(StepKind::Case(self.last_expression(cursor)?)),
            Mark::Suffices => Ok(StepKind::Suffices(self.statement(cursor, true)?)),
            Mark::Have => Ok(StepKind::Have(self.last_expression(cursor)?)),
            Mark::Take => Ok(StepKind::Take(self.taken(cursor)?)),
            Mark::Witness => Ok(StepKind::Witness(self.witnesses(cursor)?)),
            Mark::Pick => self.pick(cursor),
            Mark::Define => Ok(StepKind::Define(self.definitions(cursor)?)),
            Mark::Use => {
                let (facts, defs) = self.cited(cursor, false)?;
                Ok(StepKind::Add { facts, defs })
            }
            Mark::Hide => {
                let (facts, defs) = self.cited(cursor, true)?;
                Ok(StepKind::Hide { facts, defs })
            }
            _ => Ok(StepKind::Qed),
        }
    }

    /// What a step does, by its first token.
    #[tactic(auto, unfolding(crate::specs::Modules::kind_of))]
    pub fn kind(self, cursor: &mut Cursor<'_>) -> Result<StepKind, Fault>
        ensures { Reads (spec.kind_of self.nestings cursor.old) result cursor.new }
    {
        let word = cursor.mark();
        match word {
            Mark::Case
            | Mark::Suffices
            | Mark::Have
            | Mark::Take
            | Mark::Witness
            | Mark::Pick
            | Mark::Define
            | Mark::Use
            | Mark::Hide
            | Mark::Qed => {
                cursor.advance();
                self.after_word(cursor, word)
            }
            Mark::Name => self.name_step(cursor),
            _ => self.assertion(cursor),
        }
    }
}
