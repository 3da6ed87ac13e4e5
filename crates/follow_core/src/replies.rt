ghost use Rattle.std.specs.Prelude.{◌≡◌, ◌≤◌, ◌∷◌, [], ◌++◌, codes, length, true, if◌then◌else◌, IfOk};
ghost use Rattle.serde_json.specs.View.{view};
ghost use Rattle.serde_json.specs.Written.{compact_text};
ghost use Rattle.channel_frame.specs.FrameSpelling.{KeepsLimits, spelling};
ghost use Rattle.reply_codec.specs.ReplyBody.{plain_refusal};
ghost use Rattle.reply_codec.specs.ReplyFrame.{success_flag};
ghost use Rattle.reply_codec.specs.ReplyLimits.{keeps_limits};
ghost use Rattle.follow_core.specs.declared.taken.Taken.TheVariants.{Took, Repeat, Old, Piece, Skipped, Ahead, BadShip, BadBatch, Differs, Full, MarkFull};
ghost use Rattle.follow_core.specs.TakenReplies.{told_taken, told_differs, told_ahead, taken_object, taken_frame, is_taken};

use crate::taken::Taken;
use channel_frame::Frame;
use ctrl_model::{Bytes, Refusal, Reply};
use reply_codec::write;
use serde_json::{Value, json};
use std::alloc::{AllocError, Global};

fn taken_value(alloc: Global, own: u64, word: &str) -> Result<Value, AllocError>
    requires { length word.now ≤ 16 }
    ensures value { IfOk result (λ v. view v ≡ told_taken own word.now) }
    ensures few { IfOk result (λ _. length (compact_text (told_taken own word.now)) ≤ 1_000) }
{
    json!(in alloc; {"own": own, "taken": word})
}

fn plain_value(alloc: Global, code: u32, name: &str) -> Result<Value, AllocError>
    requires { length name.now ≤ 16 }
    ensures value { IfOk result (λ v. view v ≡ plain_refusal code name.now) }
    ensures few { IfOk result (λ _. length (compact_text (plain_refusal code name.now)) ≤ 1_000) }
{
    json!(in alloc; {"code": code, "name": name})
}

fn differs_value(alloc: Global, serial: u64, at: u32) -> Result<Value, AllocError>
    ensures value { IfOk result (λ v. view v ≡ told_differs serial at) }
    ensures few { IfOk result (λ _. length (compact_text (told_differs serial at)) ≤ 1_000) }
{
    json!(in alloc; {"at": at, "code": 62u32, "name": "Differs", "serial": serial})
}

fn ahead_value(alloc: Global, own: u64) -> Result<Value, AllocError>
    ensures value { IfOk result (λ v. view v ≡ told_ahead own) }
    ensures few { IfOk result (λ _. length (compact_text (told_ahead own)) ≤ 1_000) }
{
    json!(in alloc; {"code": 63u32, "name": "Ahead", "own": own})
}

// What is told of a frame.
fn told_value(alloc: Global, own: u64, taken: &Taken) -> Result<Value, AllocError>
    ensures value { IfOk result (λ v. view v ≡ taken_object own taken.now) }
    ensures few { IfOk result (λ _. length (compact_text (taken_object own taken.now)) ≤ 1_000) }
{
    match taken {
        Taken::Took => taken_value(alloc, own, "Took"),
        Taken::Repeat => taken_value(alloc, own, "Repeat"),
        Taken::Old => taken_value(alloc, own, "Old"),
        Taken::Piece => taken_value(alloc, own, "Piece"),
        Taken::Skipped => plain_value(alloc, 64, "Skipped"),
        Taken::Ahead => ahead_value(alloc, own),
        Taken::BadShip => plain_value(alloc, 60, "BadShip"),
        Taken::BadBatch => plain_value(alloc, 61, "BadBatch"),
        Taken::Differs { serial, at } => differs_value(alloc, *serial, *at),
        Taken::Full => plain_value(alloc, 40, "JournalFull"),
        Taken::MarkFull => plain_value(alloc, 41, "MarkFull"),
    }
}

// The body of the frame.
fn body_of(alloc: Global, own: u64, taken: &Taken) -> Result<Bytes, AllocError>
    ensures value { IfOk result (λ b. b ≡ compact_text (taken_object own taken.now)) }
    ensures few { IfOk result (λ b. length b ≤ 1_000) }
{
    let value = told_value(alloc, own, taken)?;
    let text = value.to_vec(alloc)?;
    Ok(Bytes::of(text))
}

// The reply that has the headers of the frame: one of success, or a refusal.
fn reply_like(taken: &Taken) -> Reply
    ensures flag { success_flag result ≡ (if is_taken taken.now then 1 else 0) }
    ensures limits { keeps_limits result ≡ true }
{
    match taken {
        Taken::Took | Taken::Repeat | Taken::Old | Taken::Piece => Reply::Done,
        _ => Reply::Refused(Refusal::JournalFull),
    }
}

/// The Result frame that answers a frame that was shipped, by what became of it and the copy's own serial behind it: with its sequence number in the
/// session, and with the sequence number of the frame that it answers. An Err is want of memory.
pub fn write_taken(
    alloc: Global,
    taken: &Taken,
    own: u64,
    sequence: u32,
    reply_for: u32,
) -> Result<Frame, AllocError>
    ensures frame { IfOk result (λ f. f ≡ taken_frame sequence reply_for own taken.now) }
    ensures limits { IfOk result KeepsLimits }
{
    let mut frame = write(alloc, &reply_like(taken), sequence, reply_for)?;
    frame.body = body_of(alloc, own, taken)?;
    Ok(frame)
}

/// Replies, worked by hand: a batch that was taken, 65 bytes in all; a repeat, an old one and a piece; one that differs; one that comes too early; and
/// those that are refused by their number and name alone.
pub fn worked_replies()
    ensures took { (taken_frame 0 0 1 Took).body ≡ codes "{\"own\":1,\"taken\":\"Took\"}" }
    ensures len { length (spelling (taken_frame 0 0 1 Took)) ≡ 65 }
    ensures differs { (taken_frame 1 1 1 (Differs 1 26)).body ≡ codes "{\"at\":26,\"code\":62,\"name\":\"Differs\",\"serial\":1}" }
    ensures ahead { (taken_frame 2 2 1 Ahead).body ≡ codes "{\"code\":63,\"name\":\"Ahead\",\"own\":1}" }
    ensures bad { (taken_frame 3 3 1 BadShip).body ≡ codes "{\"code\":60,\"name\":\"BadShip\"}" }
    ensures bad_batch { (taken_frame 4 4 1 BadBatch).body ≡ codes "{\"code\":61,\"name\":\"BadBatch\"}" }
    ensures skipped { (taken_frame 5 5 1 Skipped).body ≡ codes "{\"code\":64,\"name\":\"Skipped\"}" }
    ensures full { (taken_frame 6 6 1 Full).body ≡ codes "{\"code\":40,\"name\":\"JournalFull\"}" }
    ensures mark_full { (taken_frame 7 7 1 MarkFull).body ≡ codes "{\"code\":41,\"name\":\"MarkFull\"}" }
    ensures repeat { (taken_frame 8 8 1 Repeat).body ≡ codes "{\"own\":1,\"taken\":\"Repeat\"}" }
    ensures old { (taken_frame 9 9 1 Old).body ≡ codes "{\"own\":1,\"taken\":\"Old\"}" }
    ensures piece { (taken_frame 10 10 1 Piece).body ≡ codes "{\"own\":1,\"taken\":\"Piece\"}" }
{}
