ghost use Rattle.std.specs.Prelude.{◌≡◌, ◌≢◌, ◌⊎◌, ◌++◌, OnOk};
ghost use Rattle.channel_frame.specs.FrameSpelling.{spelling};
ghost use Rattle.follow_core.specs.FollowedCopies.{serial_in_store};
ghost use Rattle.follow_core.specs.TakenReplies.{taken_frame};
ghost use Rattle.journal_core.specs.Room.{HoldsRoom};
ghost use Rattle.session_mux.specs.declared.sessions.Form.TheVariants.{Plain};
ghost use Rattle.ctrl_serve.specs.FollowWords.{Copies};
ghost use Rattle.ctrl_serve.specs.Headline.{folder_bounds, taking_of, AreBounds, Refuses};
ghost use Rattle.ctrl_serve.specs.Runs.{CountsFaults};

use crate::bounds::Bounds;
use crate::folder::{store_bounds, tell_closed};
use channel_frame::{Frame, encode_behind};
use ctrl_keep::Kept;
use ctrl_model::Who;
use follow_core::{FollowFault, Follower, Taken, write_taken};
use run_notes::{Cut, Status};
use serve_loop::{AnswersFrames, run_on};
use std::alloc::{AllocError, Global};
use ziti_outside::{Desk, Source};

/// A copy of a leader's folder, which the folder keeps.
#[derive(Drop)]
pub struct FollowingCopy {
    pub follower: Follower,
}

/// What cut a frame short that a follower did not take. It was not spent.
fn cut_of_following(fault: FollowFault) -> Cut
    ensures disk { fault ≡ FollowFault.Disk → result ≡ Cut.Disk }
    ensures others { fault ≢ FollowFault.Disk → result ≡ Cut.NoMemory }
{
    match fault {
        FollowFault::Disk => Cut::Disk,
        _ => Cut::NoMemory,
    }
}

// Writes the frame of the reply behind what is given: what became of a frame, and the serial of the copy now.
fn write_answer(
    follower: &Follower,
    taken: &Taken,
    frame: &Frame,
    sequence: u32,
    reply: &mut Vec<u8>,
) -> Result<(), AllocError>
    ensures { OnOk result (reply.new.items ≡ reply.old.items ++ spelling (taken_frame sequence frame.now.sequence (serial_in_store follower.now.stored) taken.now)) }
{
    let own = follower.own();
    let answer = write_taken(*reply.allocator(), taken, own, sequence, frame.sequence)?;
    encode_behind(reply, &answer)
}

impl AnswersFrames for FollowingCopy {
    ghost use Rattle.std.specs.Prelude.{true};
    ghost use Rattle.std.specs.declared.option.Option.{Option};
    ghost use Rattle.row_store.specs.declared.bounds.StoreBounds.{StoreBounds};
    ghost use Rattle.follow_core.specs.Following.{Copy};
    ghost use Rattle.ctrl_serve.specs.CopyViews.{copy_at, copy_needs, copy_serving};
    ghost use Rattle.ctrl_serve.specs.FollowWords.{follower};

    ghost Machine = { Option Copy };

    ghost Bounds = { StoreBounds };

    ghost answers = { follower };

    ghost by_folder = { true };

    ghost serving = { λ c. copy_serving c.follower };

    ghost machine = { λ tells reads c. copy_at tells reads c.follower };

    ghost needs = { λ c. copy_needs c.follower };

    fn answer<D: Desk>(
        &mut self,
        desk: &mut D,
        who: &Who,
        frame: &Frame,
        sequence: u32,
        reply: &mut Vec<u8>,
    ) -> Result<(), Cut> {
        let _ = who;
        match self.follower.take(desk, frame) {
            Ok(taken) => {
                write_answer(&self.follower, &taken, frame, sequence, reply)?;
                Ok(())
            }
            Err(fault) => Err(cut_of_following(fault)),
        }
    }
}

/// Follows a leader into the folder, from the copy to which it opens. Where it opens to none, that is noted and nothing is taken and said.
pub(crate) fn run_follow<S: Source, D: Desk>(
    alloc: Global,
    bounds: Bounds,
    source: &mut S,
    desk: &mut D,
) -> Status
    requires { AreBounds bounds }
    ensures follows { Refuses (folder_bounds bounds) D.tells D.seen D.stopped source.old source.new desk.old desk.new result
        ⊎ Copies (taking_of Plain bounds.input) (folder_bounds bounds)
        (record { left = S.left; faults = S.faults; tells = D.tells; seen = D.seen; stopped = D.stopped })
        source.old source.new desk.old desk.new result }
    ensures counts { CountsFaults S.left S.faults D.seen source.old source.new desk.old desk.new result }
    ensures room { HoldsRoom D.tells (folder_bounds bounds).slot D.seen D.stopped desk.old desk.new }
{
    match Kept::open(alloc, desk, store_bounds(bounds)) {
        Ok(kept) => {
            let follower = Follower::new(alloc, kept.into_store());
            let mut copy = FollowingCopy { follower };
            let form = session_mux::Form::Plain;
            let status = run_on(alloc, bounds.input, form, &mut copy, source, desk);
            drop(copy);
            status
        }
        Err(fault) => tell_closed(fault, desk),
    }
}
