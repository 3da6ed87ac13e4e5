ghost use Rattle.std.specs.Prelude.{◌≡◌, ◌++◌, true, OnOk};
ghost use Rattle.ctrl_model.specs.SpelledCommands.{is_spelled};
ghost use Rattle.frame_lines.specs.FrameLines.{body_words, name_or};
ghost use Rattle.frame_lines.specs.TypeNames.{name_numbered as name_of_type};
ghost use Rattle.dump_lines.specs.Dumps.{command_line};

use command_bodies::{content_of, write};
use ctrl_model::Command;
use frame_lines::name_numbered;
use itoa::Buffer;
use std::alloc::{AllocError, Global};

// Puts the name of a content type, or its number where it has none.
fn put_type(text: &mut Vec<u8>, content: u32) -> Result<(), AllocError>
    ensures { OnOk result (text.new.items ≡ text.old.items ++ name_or (name_of_type content) content) }
{
    match name_numbered(content) {
        Some(name) => text.extend_from_slice(name.as_bytes()),
        None => {
            let mut digits = Buffer::new();
            text.extend_from_slice(digits.format(content).as_bytes())
        }
    }
}

// Puts a body behind a space, if there is one.
fn put_body(text: &mut Vec<u8>, body: &[u8]) -> Result<(), AllocError>
    ensures { OnOk result (text.new.items ≡ text.old.items ++ body_words body.now) }
{
    if body.is_empty() {
        return Ok(());
    }
    text.push(b' ')?;
    text.extend_from_slice(body)
}

// Puts the line of a command.
#[tactic(auto, unfolding(crate::specs::Dumps::command_line))]
fn put_line(alloc: Global, text: &mut Vec<u8>, command: &Command) -> Result<(), AllocError>
    requires { is_spelled command.now ≡ true }
    ensures { OnOk result (text.new.items ≡ text.old.items ++ command_line command.now) }
{
    let body = write(alloc, command)?;
    put_type(text, content_of(command))?;
    put_body(text, body.as_slice())?;
    text.extend_from_slice(b"\n")
}

/// Puts the line of a command, which is let go.
pub(crate) fn put_command(
    alloc: Global,
    text: &mut Vec<u8>,
    command: Command,
) -> Result<(), AllocError>
    requires { is_spelled command ≡ true }
    ensures { OnOk result (text.new.items ≡ text.old.items ++ command_line command) }
{
    let put = put_line(alloc, text, &command);
    drop(command);
    put
}
