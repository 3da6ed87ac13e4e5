ghost use Rattle.std.specs.Prelude.{◌≡◌, ◌+◌, ◌<◌, ◌&&◌, ◌∷◌, [], nat_le, length, IfOk, OnOk, Ok, true};
ghost use Rattle.ctrl_model.specs.SpelledCommands.{is_spelled};
ghost use Rattle.ctrl_model.specs.NameForm.{is_name};
ghost use Rattle.command_codec.specs.BodyMeaning.{meaning};
ghost use Rattle.ctrl_model.specs.ContentTypes.{content_of};
ghost use Rattle.command_bodies.specs.BodyTexts.{body_text};
ghost use Rattle.load_gen.specs.Draws.{draw};
ghost use Rattle.load_gen.specs.LoadCommands.{numbered};
ghost use Rattle.load_gen.specs.LoadFrames.{frame_at};
ghost use Rattle.load_gen.specs.LoadSteps.{Pushes};

use crate::naming::numbered;
use channel_frame::{Frame, Headers};
use command_bodies::{content_of, write};
use ctrl_model::{Command, Name};
use rand_core::utils::NextWord;
use rand_pcg::Lcg64Xsh32;
use std::alloc::{AllocError, Global};

// One word modulo k.
pub(crate) fn draw(rng: &mut Lcg64Xsh32, k: u32) -> u32
    requires { 0 < k }
    ensures value { result ≡ (draw k rng.old).0 }
    ensures left { rng.new ≡ (draw k rng.old).1 }
    ensures below { result < k }
{
    rng.next_word() % k
}

// The name of one of so many records of a letter, which is drawn.
pub(crate) fn drawn_name(
    alloc: Global,
    rng: &mut Lcg64Xsh32,
    letter: &str,
    count: u32,
) -> Result<Name, AllocError>
    requires some { 0 < count }
    requires letter { (is_name letter.now && nat_le (length letter.now) 10) ≡ true }
    ensures value { IfOk result (λ name. name ≡ numbered letter.now (1 + (draw count rng.old).0)) }
    ensures form { IfOk result (λ name. is_name name ≡ true) }
    ensures left { rng.new ≡ (draw count rng.old).1 }
{
    let number = draw(rng, count);
    numbered(alloc, letter, 1 + number)
}

fn frame(alloc: Global, place: u32, command: &Command) -> Result<Frame, AllocError>
    requires { is_spelled command.now ≡ true }
    ensures frame { IfOk result (λ f. f ≡ frame_at place command.now) }
    ensures meant { OnOk result (meaning (content_of command.now) (body_text command.now) ≡ Ok command.now) }
{
    let body = write(alloc, command)?;
    Ok(Frame {
        content: content_of(command),
        sequence: place,
        headers: Headers::of(Vec::new(alloc)),
        body,
    })
}

fn push_frame(alloc: Global, frames: &mut Vec<Frame>, command: &Command) -> Result<(), AllocError>
    requires { is_spelled command.now ≡ true }
    ensures { OnOk result (Pushes frames.old.items frames.new.items (command.now ∷ [])) }
{
    let Ok(place) = u32::try_from(frames.len()) else {
        return Err(AllocError);
    };
    let made = frame(alloc, place, command)?;
    frames.push(made)?;
    Ok(())
}

// Puts the frame of a command behind the others. More frames than there are numbers of 32 bits find no memory.
pub(crate) fn push(
    alloc: Global,
    frames: &mut Vec<Frame>,
    command: Command,
) -> Result<(), AllocError>
    requires { is_spelled command ≡ true }
    ensures { OnOk result (Pushes frames.old.items frames.new.items (command ∷ [])) }
{
    let pushed = push_frame(alloc, frames, &command);
    drop(command);
    pushed
}
