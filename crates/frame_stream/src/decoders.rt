ghost use Rattle.std.specs.Prelude.{◌≡◌, ◌+◌, ◌<◌, ◌≤◌, ◌^◌, Some, None, IfOk, OnOk, OnErr, is_some, true, length};
ghost use Rattle.channel_frame.specs.StreamReading.{front};
ghost use Rattle.channel_frame.specs.SessionBytes.{no_bytes, with_more};
ghost use Rattle.channel_frame.specs.AnnouncedFrames.{first_head as head_there, IsWholeFront};
ghost use Rattle.frame_stream.specs.declared.faults.StreamFault.TheVariants.{Bad};
ghost use Rattle.frame_stream.specs.StreamSteps.{fault_number as number_of, IsFault, without_front, at_fault, NextGives};

use crate::buffers::Buffer;
use crate::faults::{StreamFault, fault_number};
use channel_frame::{Frame, FrameFault, Front, Head, front_with, head_at_front};
use std::alloc::{AllocError, Global};
use std::marker::Model;

/// The bytes of one session that were not given as frames yet.
///
/// Contracts see how many bytes were given, the bytes held, and the fault that was met.
#[derive(Drop)]
pub struct Decoder {
    alloc: Global,
    given: u64,
    held: Buffer,
    // The head of the frame at the front, once it was read.
    head: Option<Head>,
    fault: Option<FrameFault>,
}

impl Model for Decoder {
    ghost use Rattle.std.specs.Prelude.{◌+◌, ◌<◌, ◌^◌, length};
    ghost use Rattle.channel_frame.specs.SessionBytes.{SessionBytes};
    ghost use Rattle.frame_stream.specs.StreamSteps.{HoldsNoneAfter, KnowsHead};

    ghost Value = { SessionBytes };

    ghost view = { λ d. record { given = d.given; held = d.held; fault = d.fault } };

    ghost invariant = { λ d. (d.given + length d.held < 2 ^ 63) × HoldsNoneAfter d.fault d.held × KnowsHead d.head d.held };
}

impl Decoder {
    /// A session of which no byte has come.
    pub fn new(alloc: Global) -> Decoder
        ensures { result ≡ no_bytes }
    {
        Decoder {
            alloc,
            given: 0,
            held: Buffer::new(alloc),
            head: None,
            fault: None,
        }
    }

    /// A piece comes behind the bytes held. After a fault it is passed over.
    pub fn feed(&mut self, piece: &[u8]) -> Result<(), AllocError>
        requires room { self.old.given + length self.old.held + length piece.now < 2 ^ 63 }
        ensures ok { OnOk result (self.new ≡ with_more self.old piece.now) }
        ensures err { OnErr result (self.new ≡ self.old) }
        // Memory is wanted where bytes are held, and never after a fault.
        ensures memory { OnErr result (self.old.fault ≡ None) }
    {
        match self.fault {
            Some(_) => Ok(()),
            None => self.held.append(piece),
        }
    }

    /// How many bytes are held: none after a fault.
    pub fn rest(&self) -> usize
        ensures held { result ≡ length self.now.held }
        ensures met { is_some self.now.fault ≡ true → result ≡ 0 }
    {
        self.held.len()
    }

    /// Whether a fault was met, so that nothing comes but the fault.
    pub fn is_at_fault(&self) -> bool
        ensures { result ≡ is_some self.now.fault }
    {
        self.fault.is_some()
    }

    // The head of the frame at the front. It is decoded once.
    fn first_head(&mut self) -> Result<Option<Head>, FrameFault>
        ensures head { result ≡ head_there self.old.held }
        ensures same { self.new ≡ self.old }
    {
        if self.head.is_none() {
            self.head = head_at_front(self.held.as_slice())?;
        }
        Ok(self.head)
    }

    // What stands at the front of the bytes held.
    fn held_front(&mut self) -> Result<Front, AllocError>
        ensures front { IfOk result (λ f. f ≡ front self.old.held) }
        ensures memory { OnErr result (IsWholeFront self.old.held) }
        ensures same { self.new ≡ self.old }
    {
        match self.first_head() {
            Ok(None) => Ok(Front::Short),
            Ok(Some(head)) => front_with(self.alloc, head, self.held.as_slice()),
            Err(fault) => Ok(Front::Bad(fault)),
        }
    }

    // The frame at the front is taken off.
    fn take(&mut self, len: u64)
        requires none { self.old.fault ≡ None }
        requires within { len ≤ length self.old.held }
        ensures { self.new ≡ without_front self.old len }
    {
        self.held.skip(len as usize);
        self.given += len;
        self.head = None;
    }

    // The fault at the front is met. Nothing is held from then on.
    fn meet(&mut self, fault: FrameFault)
        requires { IsFault fault }
        ensures { self.new ≡ at_fault self.old fault }
    {
        self.held.clear();
        self.head = None;
        self.fault = Some(fault);
    }

    // The fault that was met, as it is told.
    fn told(&self, fault: FrameFault) -> StreamFault
        ensures { result ≡ Bad (number_of fault) self.now.given }
    {
        StreamFault::Bad {
            fault: fault_number(fault),
            at: self.given,
        }
    }

    /// The next frame is taken off the front.
    ///
    /// `None` comes where the bytes held are an unfinished frame or nothing, and then fewer are held than a frame may have. `Bad`
    /// comes where the bytes have a fault, and from then on again.
    pub fn next(&mut self) -> Result<Option<Frame>, StreamFault>
        ensures gives { NextGives self.old self.new result }
        // No byte is counted twice.
        ensures room { self.new.given + length self.new.held ≤ self.old.given + length self.old.held }
    {
        if let Some(fault) = self.fault {
            return Err(self.told(fault));
        }
        match self.held_front()? {
            Front::Short => Ok(None),
            Front::Whole(frame, len) => {
                self.take(len);
                Ok(Some(frame))
            }
            Front::Bad(fault) => {
                self.meet(fault);
                Err(self.told(fault))
            }
        }
    }
}
