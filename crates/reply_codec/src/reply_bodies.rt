ghost use Rattle.std.specs.Prelude.{◌≡◌, ◌≤◌, ◌++◌, true, OnOk, length};
ghost use Rattle.channel_frame.specs.FrameSpelling.{longest_body};
ghost use Rattle.ctrl_model.specs.AddressForm.{is_spelling};
ghost use Rattle.ctrl_model.specs.declared.replies.Reply.TheVariants as reply;
ghost use Rattle.reply_codec.specs.ReplyBody.{is_showing, reply_body};
ghost use Rattle.reply_codec.specs.ReplyLimits.{is_short_claim, keeps_limits};
ghost use Rattle.reply_codec.specs.ReplyTokens.{is_counts, reply_tokens};

use crate::members::MemberValue::{Address, Count, Flag, Number};
use crate::members::{Member, MemberValue, put_object};
use crate::refusal_bodies::put_refusal;
use ctrl_model::{Bytes, CircuitNo, Explanation, Name, Names, Numbers, Reply, Tallies, TermNo};
use json::Writer;
use std::alloc::AllocError;

fn put_circuit<'a>(
    writer: &mut Writer,
    circuit: CircuitNo,
    ingress: &'a Name,
    links: &'a Numbers,
    terminator: TermNo,
    total: u32,
) -> Result<(), AllocError>
    requires { length links.now ≤ 255 }
    ensures written { OnOk result (writer.new.tokens ≡ writer.old.tokens ++ reply_tokens (reply.Circuit circuit ingress.now links.now terminator total)) }
    ensures before { writer.new.before ≡ writer.old.before }
    ensures few { OnOk result (length (reply_body (reply.Circuit circuit ingress.now links.now terminator total)) ≤ longest_body) }
{
    put_object(
        writer,
        &[
            Member("circuit", Number(circuit.0)),
            Member("ingress", MemberValue::Name(ingress)),
            Member("links", MemberValue::Numbers(links)),
            Member("terminator", Number(terminator.0)),
            Member("total", Number(total)),
        ],
    )
}

fn put_explained<'a>(
    writer: &mut Writer,
    ingress: &'a Name,
    claim: &'a Explanation,
) -> Result<(), AllocError>
    requires { is_short_claim claim.now ≡ true }
    ensures written { OnOk result (writer.new.tokens ≡ writer.old.tokens ++ reply_tokens (reply.Explained ingress.now claim.now)) }
    ensures before { writer.new.before ≡ writer.old.before }
    ensures few { OnOk result (length (reply_body (reply.Explained ingress.now claim.now)) ≤ longest_body) }
{
    put_object(
        writer,
        &[
            Member("ingress", MemberValue::Name(ingress)),
            Member("links", MemberValue::Numbers(&claim.links)),
            Member("potentials", MemberValue::Reaches(&claim.potentials)),
            Member("routers", MemberValue::Numbers(&claim.routers)),
            Member("terminator", Number(claim.terminator.0)),
            Member("total", Number(claim.total)),
        ],
    )
}

fn put_shown<'a>(
    writer: &mut Writer,
    identity: &'a Name,
    ingress: &'a Name,
    links: &'a Numbers,
    service: &'a Name,
    terminator: TermNo,
) -> Result<(), AllocError>
    requires { length links.now ≤ 255 }
    ensures written { OnOk result (writer.new.tokens ≡ writer.old.tokens ++ reply_tokens (reply.Shown identity.now ingress.now links.now service.now terminator)) }
    ensures before { writer.new.before ≡ writer.old.before }
    ensures few { OnOk result (length (reply_body (reply.Shown identity.now ingress.now links.now service.now terminator)) ≤ longest_body) }
{
    put_object(
        writer,
        &[
            Member("identity", MemberValue::Name(identity)),
            Member("ingress", MemberValue::Name(ingress)),
            Member("links", MemberValue::Numbers(links)),
            Member("service", MemberValue::Name(service)),
            Member("terminator", Number(terminator.0)),
        ],
    )
}

fn put_picked<'a>(
    writer: &mut Writer,
    address: &'a Bytes,
    low: u32,
    high: u32,
    service: &'a Name,
) -> Result<(), AllocError>
    requires { is_spelling address.now ≡ true }
    ensures written { OnOk result (writer.new.tokens ≡ writer.old.tokens ++ reply_tokens (reply.Picked address.now low high service.now)) }
    ensures before { writer.new.before ≡ writer.old.before }
    ensures few { OnOk result (length (reply_body (reply.Picked address.now low high service.now)) ≤ longest_body) }
{
    put_object(
        writer,
        &[
            Member("address", Address(address)),
            Member("high", Number(high)),
            Member("low", Number(low)),
            Member("service", MemberValue::Name(service)),
        ],
    )
}

fn put_grants<'a>(
    writer: &mut Writer,
    bind: &'a Tallies,
    dial: &'a Tallies,
    routers: &'a Tallies,
) -> Result<(), AllocError>
    requires bind { length bind.now ≤ 512 }
    requires dial { length dial.now ≤ 512 }
    requires routers { length routers.now ≤ 256 }
    ensures written { OnOk result (writer.new.tokens ≡ writer.old.tokens ++ reply_tokens (reply.Grants bind.now dial.now routers.now)) }
    ensures before { writer.new.before ≡ writer.old.before }
    ensures few { OnOk result (length (reply_body (reply.Grants bind.now dial.now routers.now)) ≤ longest_body) }
{
    put_object(
        writer,
        &[
            Member("bind", MemberValue::Tallies(bind)),
            Member("dial", MemberValue::Tallies(dial)),
            Member("routers", MemberValue::Tallies(routers)),
        ],
    )
}

fn put_services(writer: &mut Writer, names: &Names) -> Result<(), AllocError>
    requires { length names.now ≤ 512 }
    ensures written { OnOk result (writer.new.tokens ≡ writer.old.tokens ++ reply_tokens (reply.Services names.now)) }
    ensures before { writer.new.before ≡ writer.old.before }
    ensures few { OnOk result (length (reply_body (reply.Services names.now)) ≤ longest_body) }
{
    put_object(writer, &[Member("services", MemberValue::Names(names))])
}

fn put_clashes(writer: &mut Writer, names: &Names) -> Result<(), AllocError>
    requires { length names.now ≤ 512 }
    ensures written { OnOk result (writer.new.tokens ≡ writer.old.tokens ++ reply_tokens (reply.Clashes names.now)) }
    ensures before { writer.new.before ≡ writer.old.before }
    ensures few { OnOk result (length (reply_body (reply.Clashes names.now)) ≤ longest_body) }
{
    put_object(writer, &[Member("clashes", MemberValue::Names(names))])
}

fn put_made(writer: &mut Writer, number: u32) -> Result<(), AllocError>
    ensures written { OnOk result (writer.new.tokens ≡ writer.old.tokens ++ reply_tokens (reply.Made number)) }
    ensures before { writer.new.before ≡ writer.old.before }
    ensures few { OnOk result (length (reply_body (reply.Made number)) ≤ longest_body) }
{
    put_object(writer, &[Member("no", Number(number))])
}

fn put_verified(writer: &mut Writer, certified: bool) -> Result<(), AllocError>
    ensures written { OnOk result (writer.new.tokens ≡ writer.old.tokens ++ reply_tokens (reply.Verified certified)) }
    ensures before { writer.new.before ≡ writer.old.before }
    ensures few { OnOk result (length (reply_body (reply.Verified certified)) ≤ longest_body) }
{
    put_object(writer, &[Member("certified", Flag(certified))])
}

// Writes the object of counts.
fn put_counts(writer: &mut Writer, reply: &Reply) -> Result<(), AllocError>
    requires { is_counts reply.now ≡ true }
    ensures written { OnOk result (writer.new.tokens ≡ writer.old.tokens ++ reply_tokens reply.now) }
    ensures before { writer.new.before ≡ writer.old.before }
    ensures few { OnOk result (length (reply_body reply.now) ≤ longest_body) }
{
    let Reply::Counts {
        circuits,
        grants,
        identities,
        links,
        policies,
        routers,
        services,
        terminators,
    } = reply
    else {
        unreachable!()
    };
    put_object(
        writer,
        &[
            Member("circuits", Number(*circuits)),
            Member("grants", Count(*grants)),
            Member("identities", Number(*identities)),
            Member("links", Number(*links)),
            Member("policies", Number(*policies)),
            Member("routers", Number(*routers)),
            Member("services", Number(*services)),
            Member("terminators", Number(*terminators)),
        ],
    )
}

// Writes the object of a reply that shows what there is: services, grants, a circuit, counts, what is picked or clashes.
fn put_showing(writer: &mut Writer, reply: &Reply) -> Result<(), AllocError>
    requires limits { keeps_limits reply.now ≡ true }
    requires showing { is_showing reply.now ≡ true }
    ensures written { OnOk result (writer.new.tokens ≡ writer.old.tokens ++ reply_tokens reply.now) }
    ensures before { writer.new.before ≡ writer.old.before }
    ensures few { OnOk result (length (reply_body reply.now) ≤ longest_body) }
{
    match reply {
        Reply::Services { names } => put_services(writer, names),
        Reply::Grants {
            bind,
            dial,
            routers,
        } => put_grants(writer, bind, dial, routers),
        Reply::Shown {
            identity,
            ingress,
            links,
            service,
            terminator,
        } => put_shown(writer, identity, ingress, links, service, *terminator),
        Reply::Counts { .. } => put_counts(writer, reply),
        Reply::Picked {
            address,
            low,
            high,
            service,
        } => put_picked(writer, address, *low, *high, service),
        Reply::Clashes { names } => put_clashes(writer, names),
        _ => unreachable!(),
    }
}

/// Writes the object of a reply, if it has one: at most 1,048,576 bytes. An `Err` is want of memory.
pub(crate) fn put_reply(writer: &mut Writer, reply: &Reply) -> Result<(), AllocError>
    requires { keeps_limits reply.now ≡ true }
    ensures written { OnOk result (writer.new.tokens ≡ writer.old.tokens ++ reply_tokens reply.now) }
    ensures before { writer.new.before ≡ writer.old.before }
    ensures few { OnOk result (length (reply_body reply.now) ≤ longest_body) }
{
    match reply {
        Reply::Empty => Ok(()),
        Reply::Done => put_object(writer, &[]),
        Reply::Made { no } => put_made(writer, *no),
        Reply::Circuit {
            circuit,
            ingress,
            links,
            terminator,
            total,
        } => put_circuit(writer, *circuit, ingress, links, *terminator, *total),
        Reply::Explained { ingress, claim } => put_explained(writer, ingress, claim),
        Reply::Verified { certified } => put_verified(writer, *certified),
        Reply::Refused(refusal) => put_refusal(writer, refusal),
        _ => put_showing(writer, reply),
    }
}
