ghost use Rattle.std.specs.Prelude.{◌≡◌, ◌++◌, OnOk};
ghost use Rattle.ctrl_model.specs.declared.replies.Reply.TheVariants.{Refused};
ghost use Rattle.reply_codec.specs.ReplyBody.{reply_body};
ghost use Rattle.change_plans.specs.PlannedLines.{refused_with};
ghost use Rattle.change_plans.specs.PlanTurns.{refusal_told};

use ctrl_model::Reply;
use reply_codec::write;
use std::alloc::{AllocError, Global};

// Puts a line down: `refused`, a number and a text.
fn put_refused(alloc: Global, out: &mut Vec<u8>, number: u64, body: &[u8]) -> Result<(), AllocError>
    ensures { OnOk result (out.new.items ≡ out.old.items ++ refused_with number body.now) }
{
    let front = format!(in alloc; "refused {number} ")?;
    out.extend_from_slice(front.as_bytes())?;
    out.extend_from_slice(body)?;
    out.push(b'\n')?;
    Ok(())
}

/// Puts the line of a reply down, where it refuses a line of this number.
pub(crate) fn tell_refusal(
    alloc: Global,
    out: &mut Vec<u8>,
    number: u64,
    reply: &Reply,
) -> Result<(), AllocError>
    ensures { OnOk result (out.new.items ≡ out.old.items ++ refusal_told number reply.now) }
{
    match reply {
        Reply::Refused(_) => {
            let frame = write(alloc, reply, 0, 0)?;
            put_refused(alloc, out, number, frame.body.as_slice())
        }
        _ => Ok(()),
    }
}
