//! From a call of `printf`, whose values lie on the stack, to actions.
ghost use Rattle.std.specs.Prelude.{◌≡◌, ◌≤◌, [], ◌∷◌, ◌++◌, length, pred, OnOk, IfOk};
ghost use Rattle.arc_checked.specs.Checked as checked;
ghost use Rattle.arc_code.specs.declared.code.TheConstants.{MOST_TEXT};
ghost use Rattle.arc_code.specs.declared.instr.Instr.TheVariants.{PrintText};
ghost use Rattle.arc_lower.specs.PlainActions.{plain_action, plain_actions};
ghost use Rattle.arc_lower.specs.Lowered.{conversion_actions, text_actions, piece_actions, left_after, format_actions, pop_actions, keep_actions, print_actions};

use crate::expression::append;
use arc_ast::tree::Kind;
use arc_checked::program::Piece;
use arc_code::code::MOST_TEXT;
use arc_code::instr::{Instr, Op};
use arc_ir::action::{Action, TextPart};
use arc_spec::event::NoMemory;
use std::alloc::Global;

/// Appends the actions that print a format after its values, of which there are `count`, and
/// leave the number of bytes in their place.
pub(crate) fn append_print(
    alloc: Global,
    actions: &mut Vec<Action>,
    pieces: &[Piece],
    count: usize,
) -> Result<(), NoMemory>
    ensures { OnOk result (plain_actions actions.new.items ≡ plain_actions actions.old.items ++ print_actions (checked.pieces pieces.now) count) }
{
    append(actions, Instr::Plain(Op::Num(0)))?;
    append_pieces(alloc, actions, pieces, count)?;
    append(actions, Instr::Plain(Op::Narrow(Kind::Int)))?;
    append_keep(actions, count)
}

/// Appends the actions that print the pieces of a format.
fn append_pieces(
    alloc: Global,
    actions: &mut Vec<Action>,
    pieces: &[Piece],
    count: usize,
) -> Result<(), NoMemory>
    ensures { OnOk result (plain_actions actions.new.items ≡ plain_actions actions.old.items ++ format_actions (checked.pieces pieces.now) count) }
{
    let mut left = count;
    for piece in pieces {
        left = append_piece(alloc, actions, piece, left)?;
    }
    Ok(())
}

/// Appends the actions that print one piece, where `left` values aren't printed yet. Gives how many
/// are left then.
fn append_piece(
    alloc: Global,
    actions: &mut Vec<Action>,
    piece: &Piece,
    left: usize,
) -> Result<usize, NoMemory>
    ensures appended { OnOk result (plain_actions actions.new.items ≡ plain_actions actions.old.items ++ piece_actions (checked.piece piece.now) left) }
    ensures later { IfOk result (λ now. now ≡ left_after (checked.piece piece.now) left) }
{
    match piece {
        Piece::Bytes(bytes) => {
            append_text(alloc, actions, bytes)?;
            Ok(left)
        }
        Piece::Decimal => append_conversion(actions, Instr::Plain(Op::PrintNum), left),
        Piece::Character => append_conversion(actions, Instr::Plain(Op::PrintByte), left),
    }
}

/// Appends the actions that print a text, one for each `MOST_TEXT` bytes; an empty text is one action that
/// prints nothing.
#[tactic(auto, using(crate::proofs::ActionLists::text_more, std::proofs::lemmas::Grind::common_steps))]
fn append_text(alloc: Global, actions: &mut Vec<Action>, bytes: &[u8]) -> Result<(), NoMemory>
    ensures { OnOk result (plain_actions actions.new.items ≡ plain_actions actions.old.items ++ text_actions bytes.now) }
{
    let mut rest = bytes;
    while rest.len() > MOST_TEXT {
        let (part, after) = rest.split_at(MOST_TEXT);
        append_part(alloc, actions, part)?;
        rest = after;
    }
    append_part(alloc, actions, rest)
}

/// Appends the action that prints a part of a text.
fn append_part(alloc: Global, actions: &mut Vec<Action>, part: &[u8]) -> Result<(), NoMemory>
    requires { length part.now ≤ MOST_TEXT }
    ensures { OnOk result (plain_actions actions.new.items ≡ plain_actions actions.old.items ++ PrintText part.now ∷ []) }
{
    let bytes = Vec::from_slice(alloc, part)?;
    append(actions, Instr::PrintText(TextPart { bytes }))
}

/// Appends the actions that print the first of `left` values, where there is one.
fn append_conversion(
    actions: &mut Vec<Action>,
    print: Action,
    left: usize,
) -> Result<usize, NoMemory>
    ensures appended { OnOk result (plain_actions actions.new.items ≡ plain_actions actions.old.items ++ conversion_actions (plain_action print) left) }
    ensures later { IfOk result (λ now. now ≡ pred left) }
{
    if left == 0 {
        return Ok(0);
    }
    append(actions, Instr::Plain(Op::Get(left)))?;
    append(actions, print)?;
    Ok(left - 1)
}

/// Appends the actions that put the top number in the place of the last of `count` numbers below
/// it, and take the others.
pub(crate) fn append_keep(actions: &mut Vec<Action>, count: usize) -> Result<(), NoMemory>
    ensures { OnOk result (plain_actions actions.new.items ≡ plain_actions actions.old.items ++ keep_actions count) }
{
    if count == 0 {
        return Ok(());
    }
    append(actions, Instr::Plain(Op::Set(count - 1)))?;
    append_pops(actions, count - 1)
}

/// Appends actions that take `count` numbers.
#[tactic(auto, using(crate::proofs::ActionLists::pops_more, std::proofs::lemmas::Grind::common_steps))]
pub(crate) fn append_pops(actions: &mut Vec<Action>, count: usize) -> Result<(), NoMemory>
    ensures { OnOk result (plain_actions actions.new.items ≡ plain_actions actions.old.items ++ pop_actions count) }
{
    for _number in 0..count {
        append(actions, Instr::Plain(Op::Pop))?;
    }
    Ok(())
}
