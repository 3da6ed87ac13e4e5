use channel_frame::Frame;
use ctrl_model::Who;
use run_notes::Cut;
use ziti_outside::Desk;

/// Who answers the frames of an input, with a folder or without.
///
/// Contracts see what it is `serving` with at a moment, its `machine`, by whether the folder is told and by what it reads, and what it `needs`
/// to answer. Within its bounds, `answers` says how it answers: the machine behind a frame, and the bytes of the reply; when a folder opens to a
/// machine, and how a folder follows it. Where its replies hang on what the folder reads, which `by_folder` says, they are the machine's only if
/// the folder is told.
pub trait AnswersFrames {
    ghost use Rattle.std.specs.Prelude.{◌≡◌, ◌≢◌, ◌⊎◌, ◌++◌, Bool, true, false, IsTrue, IfErr, OnOk};
    ghost use Rattle.ziti_outside.specs.Causes.{HasCause};
    ghost use Rattle.ziti_outside.specs.Images.{Image};
    ghost use Rattle.ziti_outside.specs.Moments.{Leaves, Remembers};
    ghost use Rattle.ziti_outside.specs.Untouched.{OnlyDisk};
    ghost use Rattle.journal_core.specs.Room.{HoldsRoom};
    ghost use Rattle.serve_loop.specs.Answerers.{Answerer, FailsWithFolder, GoesOn, IsReadyOn, Needs, Serving, are_its_own};
    ghost use Rattle.serve_loop.specs.Turns.{unkept};

    ghost Machine: { Type 0 };

    ghost Bounds: { Type 0 };

    ghost answers: { Bounds → Answerer Machine };

    ghost by_folder: { Bool };

    ghost serving: { Self → Serving Bounds };

    ghost machine: { (tells : Bool) (reads : Image) → Self → Machine };

    ghost needs: { Self → Needs };

    /// Answers a frame of a sender, and writes the frame of the reply behind what is given, with a sequence number. With a folder the change is
    /// kept there before the answer is given, and a stop at any moment leaves the machine before the frame or the one after it.
    fn answer<D: Desk>(
        &mut self,
        desk: &mut D,
        who: &Who,
        frame: &Frame,
        sequence: u32,
        reply: &mut Vec<u8>,
    ) -> Result<(), Cut>
        requires able { (serving self.old).able ≡ true }
        requires ready { IsReadyOn needs D.tells D.seen D.stopped desk.old self.old }
        ensures next { OnOk result ((machine D.tells (D.seen desk.new).reads self.new) ≡ (answers (serving self.old).bounds).next who.now frame.now (machine D.tells (D.seen desk.old).reads self.old)) }
        ensures written { OnOk result (are_its_own by_folder D.tells ≡ true → reply.new.items ≡ reply.old.items ++ (answers (serving self.old).bounds).reply sequence who.now frame.now (machine D.tells (D.seen desk.old).reads self.old)) }
        ensures on { OnOk result (GoesOn (serving self.old) (serving self.new)) }
        ensures follows { OnOk result (IsTrue (serving self.old).folder → IsTrue D.tells
            → (answers (serving self.old).bounds).follows (machine D.tells (D.seen desk.old).reads self.old) (machine D.tells (D.seen desk.new).reads self.new) (D.seen desk.old).reads (D.seen desk.new).reads) }
        ensures ready { OnOk result (IsReadyOn needs D.tells D.seen D.stopped desk.new self.new) }
        ensures found { OnOk result (IsTrue (serving self.old).folder → IsTrue D.tells → (image : Image) → (D.stopped desk.new).images image
            → (answers (serving self.old).bounds).opens image (machine D.tells (D.seen desk.new).reads self.new)) }
        ensures cut { IfErr result (λ c. c ≢ Cut.Unsaid) }
        ensures cause { HasCause (D.seen desk.old).disk_faults (D.seen desk.new).disk_faults (unkept result) }
        ensures undisked { FailsWithFolder (serving self.old) result }
        ensures alone { (serving self.old).folder ≡ false → desk.new ≡ desk.old }
        ensures room { HoldsRoom D.tells (serving self.old).slot D.seen D.stopped desk.old desk.new }
        ensures others { OnlyDisk D.seen desk.old desk.new }
        ensures stops { IsTrue (serving self.old).folder → IsTrue D.tells → Leaves D.seen D.stopped desk.old desk.new
            (λ image. (answers (serving self.old).bounds).opens image (machine D.tells (D.seen desk.old).reads self.old)
            ⊎ (answers (serving self.old).bounds).opens image ((answers (serving self.old).bounds).next who.now frame.now (machine D.tells (D.seen desk.old).reads self.old))) }
        ensures remembers { Remembers (D.stopped desk.old) (D.stopped desk.new) };
}
