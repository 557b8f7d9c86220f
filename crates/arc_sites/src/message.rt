//! The messages of a source.
ghost use Rattle.std.specs.Prelude.{◌≡◌, option_map};
ghost use Rattle.arc_ast.specs.Tree.{expr_tree};
ghost use Rattle.arc_sites.specs.FoundViolations.{message_of};
ghost use Rattle.arc_sites.specs.Messages as messages;

use arc_ast::tree::Expr;

/// A message: the place of its selector's first part, what it is sent to, of which one to `super` has none, and its selector with
/// all colons (OPL, "Message Syntax").
#[derive(Clone, Copy)]
pub struct Message<'a> {
    pub part: usize,
    pub receiver: Option<&'a Expr>,
    pub selector: &'a [u8],
}

/// The message that an expression sends; None where it is no message.
pub fn sent_message(expr: &Expr) -> Option<Message<'_>>
    ensures { option_map message_of result ≡ messages.sent_message (expr_tree expr.now) }
{
    match expr {
        Expr::Send(_, part, receiver, selector, _) => Some(Message {
            part: *part,
            receiver: Some(receiver),
            selector,
        }),
        Expr::SendSuper(_, part, _, selector, _) => Some(Message {
            part: *part,
            receiver: None,
            selector,
        }),
        _ => None,
    }
}

/// Whether an expression is `self`, parentheses aside.
pub fn is_itself(expr: &Expr) -> bool
    ensures { result ≡ messages.is_itself (expr_tree expr.now) }
{
    match expr {
        Expr::Itself(_) => true,
        Expr::Paren(_, inside) => is_itself(inside),
        _ => false,
    }
}

/// Whether a message is sent to `self` or to `super`.
pub fn is_to_itself(message: Message) -> bool
    ensures { result ≡ messages.is_to_itself (message_of message.entry) }
{
    match message.receiver {
        None => true,
        Some(receiver) => is_itself(receiver),
    }
}
