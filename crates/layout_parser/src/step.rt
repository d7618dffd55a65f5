//! The pieces of a chain.

ghost use Rattle.std.specs.Prelude.{◌≡◌, Ok, Err, IfOk, Some, None};
ghost use Rattle.token_reader.specs.Input as input;
ghost use Rattle.tla_ast.specs.Answers.{Reads};
ghost use Rattle.layout_parser.specs.Reading as spec;
ghost use Rattle.layout_parser.specs.Reading.{rule};
ghost use Rattle.layout_parser.specs.Nests.{Nests, Steps};

use crate::flat::{Flat, Step};
use crate::grammar::{Grammar, told};
use core_expr::{Memory, Text};
use operator_chain::{Ending, Operator, Piece, Suffix, plain};
use std::alloc::Global;
use std_names::Fix;
use tla_ast::{Fault, Node, Place};
use token_reader::{Around, Cursor, Mark, Setting, Stop};

/// The operator that the next token is, in the region.
fn operator_at(
    alloc: Global,
    cursor: &Cursor<'_>,
    setting: Setting,
    fix: Fix,
) -> Result<Option<Operator>, Memory>
    ensures { IfOk result (λ o. o ≡ spec.operator_in setting fix cursor.now) }
{
    if !cursor.is_inside(setting) {
        return Ok(None);
    }
    Operator::find(alloc, cursor.spelling(), fix, cursor.place())
}

/// The postfix `'`.
fn prime_at(place: Place) -> Piece
    ensures { result ≡ spec.prime_at place }
{
    Piece::Postfix(Suffix {
        ending: Ending::Prime,
        low: 15,
        high: 15,
        place,
    })
}

/// `[e]` after an operand.
fn index_at(argument: Node, place: Place) -> Piece
    ensures { result ≡ spec.index_at argument place }
{
    Piece::Postfix(Suffix {
        ending: Ending::Index(argument),
        low: 16,
        high: 16,
        place,
    })
}

/// `.h` after an operand.
fn field_at(name: Text, place: Place) -> Piece
    ensures { result ≡ spec.field_at name place }
{
    Piece::Postfix(Suffix {
        ending: Ending::Field(name),
        low: 17,
        high: 17,
        place,
    })
}

/// `.h`, of which the next token is the `.`.
fn field(alloc: Global, cursor: &mut Cursor<'_>, setting: Setting) -> Result<Step, Memory>
    ensures { Steps (spec.field setting cursor.old) result cursor.new }
{
    let place = cursor.take();
    match cursor.name(alloc, setting, Stop::Other) {
        Ok(name) => Ok(Step::More(field_at(name, place), false)),
        Err(fault) => {
            let fault = told(fault)?;
            let unfinished = field_at(Text::of(alloc, &[])?, place);
            Ok(Step::Broken(Some(unfinished), fault))
        }
    }
}

impl<F: Fn(Global, &mut Cursor<'_>, usize, usize, Setting, bool) -> Result<Flat, Memory>> Grammar<
    F,
> {
    /// The argument of `f[e]`.
    #[tactic(auto, unfolding(crate::specs::Reading::index))]
    fn index(&self, cursor: &mut Cursor<'_>, setting: Setting) -> Result<Node, Fault>
        requires { Nests self.now.left (F.pre self.now.read) (F.post self.now.read) }
        ensures { Reads (rule self.now.left spec.index setting cursor.old) result cursor.new }
    {
        let inside = setting.within(Around::Square);
        cursor.opening(self.left)?;
        let argument = self.part(cursor, inside)?;
        cursor.expect(self.alloc, inside, Stop::Expression, Mark::CloseSquare)?;
        Ok(argument)
    }

    /// `[e]` after an operand.
    fn indexed(&self, cursor: &mut Cursor<'_>, setting: Setting) -> Result<Step, Memory>
        requires { Nests self.now.left (F.pre self.now.read) (F.post self.now.read) }
        ensures { Steps (rule self.now.left spec.indexed setting cursor.old) result cursor.new }
    {
        let place = cursor.place();
        match self.index(cursor, setting) {
            Ok(argument) => Ok(Step::More(index_at(argument, place), false)),
            Err(fault) => {
                let fault = told(fault)?;
                Ok(Step::Broken(Some(index_at(plain(self.alloc), place)), fault))
            }
        }
    }

    /// A prefix operator or an operand.
    #[tactic(auto, unfolding(crate::specs::Reading::step_before))]
    pub fn step_before(&self, cursor: &mut Cursor<'_>, setting: Setting) -> Result<Step, Memory>
        requires { Nests self.now.left (F.pre self.now.read) (F.post self.now.read) }
        ensures { Steps (rule self.now.left spec.step_before setting cursor.old) result cursor.new }
    {
        if let Some(operator) = operator_at(self.alloc, cursor, setting, Fix::Prefix)? {
            cursor.advance();
            return Ok(Step::More(Piece::Prefix(operator), true));
        }
        match self.operand(cursor, setting) {
            Ok(operand) => Ok(Step::More(Piece::Operand(operand), false)),
            Err(fault) => {
                let fault = told(fault)?;
                Ok(Step::Broken(None, fault))
            }
        }
    }

    /// A postfix operator, or the end of the chain.
    fn suffixed(&self, cursor: &mut Cursor<'_>, setting: Setting) -> Result<Step, Memory>
        requires { Nests self.now.left (F.pre self.now.read) (F.post self.now.read) }
        ensures { Steps (rule self.now.left spec.suffixed setting (input.mark cursor.old) cursor.old)
            result cursor.new }
    {
        match cursor.mark() {
            Mark::Prime => {
                let place = cursor.take();
                Ok(Step::More(prime_at(place), false))
            }
            Mark::OpenSquare => self.indexed(cursor, setting),
            Mark::Dot => field(self.alloc, cursor, setting),
            _ => Ok(Step::Ended),
        }
    }

    /// An infix or postfix operator, or the end of the chain.
    #[tactic(auto, unfolding(crate::specs::Reading::step_after))]
    pub fn step_after(&self, cursor: &mut Cursor<'_>, setting: Setting) -> Result<Step, Memory>
        requires { Nests self.now.left (F.pre self.now.read) (F.post self.now.read) }
        ensures { Steps (rule self.now.left spec.step_after setting cursor.old) result cursor.new }
    {
        if let Some(operator) = operator_at(self.alloc, cursor, setting, Fix::Infix)? {
            cursor.advance();
            return Ok(Step::More(Piece::Infix(operator), true));
        }
        if cursor.is_inside(setting) {
            self.suffixed(cursor, setting)
        } else {
            Ok(Step::Ended)
        }
    }
}
