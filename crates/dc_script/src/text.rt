//! The beginnings of action lines.
ghost use Rattle.std.specs.Prelude.{◌≡◌, ◌+◌, ◌≤◌, [], ◌∷◌, ◌++◌, length, decimal};
ghost use Rattle.arrayvec.specs.ArrayVec.{array_vec_len};
ghost use Rattle.dc_script.specs.Text.{action_text};
ghost use Rattle.dc_script.specs.View.{action_of, rest_text};

use crate::action::Action;
use dc_writer::{MOST_WORDS, Words, push_address, push_all, push_number};

/// What stands at the end of an action's line, behind its words.
#[derive(Clone, Copy)]
pub enum Rest<'a> {
    /// Bytes, to be written in hexadecimal digits.
    Bytes(&'a [u8]),
    /// Text, to be written as it is.
    Text(&'a [u8]),
    Nothing,
}

/// Adds a word with a space behind it, and then a number.
fn push_word(text: &mut Words, word: &[u8], number: u64)
    requires { array_vec_len text.old + length word.now + 20 ≤ MOST_WORDS }
    ensures items { text.new.items ≡ text.old.items ++ word.now ++ decimal number }
    ensures len { array_vec_len text.new ≤ array_vec_len text.old + length word.now + 20 }
{
    push_all(text, word);
    push_number(text, number);
}

/// Adds the words of an action's line, and gives what stands behind them. The line's end is still to come.
pub fn push_words<'a>(text: &mut Words, action: &Action<'a>) -> Rest<'a>
    requires { text.old.items ≡ [] }
    ensures { action_text (action_of action.now) ≡ (text.new.items ++ rest_text result) ++ 10 ∷ [] }
{
    match *action {
        Action::Reply { addr, port, bytes } => {
            push_all(text, b"reply ");
            push_address(text, addr);
            push_word(text, b" ", port.into());
            push_all(text, b" ");
            Rest::Bytes(bytes)
        }
        Action::ConnReply { conn, bytes } => {
            push_word(text, b"connreply ", conn);
            push_all(text, b" ");
            Rest::Bytes(bytes)
        }
        Action::ConnClose { conn } => {
            push_word(text, b"connclose ", conn);
            Rest::Nothing
        }
        Action::Udp {
            link,
            local_port,
            server,
            query,
        } => {
            push_word(text, b"udp ", link);
            push_word(text, b" ", local_port.into());
            push_all(text, b" ");
            push_address(text, server);
            push_all(text, b" ");
            Rest::Bytes(query)
        }
        Action::Tcp {
            link,
            local_port,
            server,
        } => {
            push_word(text, b"tcp ", link);
            push_word(text, b" ", local_port.into());
            push_all(text, b" ");
            push_address(text, server);
            Rest::Nothing
        }
        Action::LinkWrite { link, bytes } => {
            push_word(text, b"linkwrite ", link);
            push_all(text, b" ");
            Rest::Bytes(bytes)
        }
        Action::LinkClose { link } => {
            push_word(text, b"linkclose ", link);
            Rest::Nothing
        }
        Action::Line { text: line } => {
            push_all(text, b"line ");
            Rest::Text(line)
        }
    }
}
