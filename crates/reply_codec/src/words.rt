ghost use Rattle.std.specs.Prelude.{◌≡◌};
ghost use Rattle.reply_codec.specs.ReplyBody.{kind_word, reason_word};

use ctrl_model::{Kind, Reason};

// The word of a kind.
pub(crate) fn kind_word(kind: Kind) -> &'static str
    ensures { result.now ≡ kind_word kind }
{
    match kind {
        Kind::Identity => "identity",
        Kind::Service => "service",
        Kind::Router => "router",
        Kind::Link => "link",
        Kind::ServicePolicy => "service_policy",
        Kind::EdgeRouterPolicy => "edge_router_policy",
        Kind::ServiceEdgeRouterPolicy => "service_edge_router_policy",
        Kind::Terminator => "terminator",
        Kind::Circuit => "circuit",
        Kind::Attribute => "attribute",
    }
}

// The word of a reason.
pub(crate) fn reason_word(reason: Reason) -> &'static str
    ensures { result.now ≡ reason_word reason }
{
    match reason {
        Reason::NotObject => "NotObject",
        Reason::Missing => "Missing",
        Reason::WrongKind => "WrongKind",
        Reason::Unknown => "Unknown",
    }
}
