//! A small network by names, as texts of rows: a content type, the body of the frame, and behind ` -> ` the body of its reply.

use crate::examples::{CLAIMS, SMALL_NETWORK};

/// An identity ann and a service web.
const PAIR: &str = r##"
1000 {"name":"ann"} -> {"no":1}
1010 {"name":"web"} -> {"no":1}
"##;

/// Behind the pair: a router that is connected. Ann may dial web and enters at it.
const ENTRY: &str = r##"
1020 {"name":"r1"} -> {"no":1}
1023 {"name":"r1"} -> {}
1100 {"name":"d","type":"Dial","semantic":"AnyOf","identity_roles":["@ann"],"service_roles":["@web"]} -> {"no":1}
1110 {"name":"e","semantic":"AnyOf","identity_roles":["@ann"],"router_roles":["@r1"]} -> {"no":1}
1120 {"name":"s","semantic":"AnyOf","service_roles":["#all"],"router_roles":["#all"]} -> {"no":1}
"##;

/// Two more routers in a row behind the first, with links that cost 11 each: web is offered at the third.
const LINE: &str = r##"
1020 {"name":"r2"} -> {"no":2}
1020 {"name":"r3"} -> {"no":3}
1023 {"name":"r2"} -> {}
1023 {"name":"r3"} -> {}
1200 {"name":"l1","a":"r1","b":"r2","latency_a":5,"latency_b":5} -> {"no":1}
1200 {"name":"l2","a":"r2","b":"r3","latency_a":5,"latency_b":5} -> {"no":2}
1300 {"service":"web","router":"r3"} -> {"no":1}
"##;

/// Behind the line: ann's circuit, a second one that ends at the second router, and the dear link.
const TWO_CIRCUITS: &str = r##"
1400 {"identity":"ann","service":"web"} -> {"circuit":1,"ingress":"r1","links":[1,2],"terminator":1,"total":42}
1300 {"service":"web","router":"r2"} -> {"no":2}
1400 {"identity":"ann","service":"web"} -> {"circuit":2,"ingress":"r1","links":[1],"terminator":2,"total":21}
1200 {"name":"l3","a":"r1","b":"r3","cost":60} -> {"no":3}
"##;

/// Behind the entry: with three more routers a square, and two ways of one cost between two of them. The one whose links come first is
/// taken.
const SQUARE: &str = r##"
1020 {"name":"r2"} -> {"no":2}
1020 {"name":"r3"} -> {"no":3}
1020 {"name":"r4"} -> {"no":4}
1023 {"name":"r2"} -> {}
1023 {"name":"r3"} -> {}
1023 {"name":"r4"} -> {}
1200 {"name":"l1","a":"r1","b":"r2","cost":11} -> {"no":1}
1200 {"name":"l2","a":"r1","b":"r3","cost":11} -> {"no":2}
1200 {"name":"l3","a":"r3","b":"r4","cost":11} -> {"no":3}
1200 {"name":"l4","a":"r2","b":"r4","cost":11} -> {"no":4}
1300 {"service":"web","router":"r4"} -> {"no":1}
1400 {"identity":"ann","service":"web"} -> {"circuit":1,"ingress":"r1","links":[1,4],"terminator":1,"total":42}
"##;

/// The texts by their names, which stand for them in other texts.
pub(crate) const TEXTS: &[(&str, &str)] = &[
    ("SMALL_NETWORK", SMALL_NETWORK),
    ("CLAIMS", CLAIMS),
    ("PAIR", PAIR),
    ("ENTRY", ENTRY),
    ("LINE", LINE),
    ("TWO_CIRCUITS", TWO_CIRCUITS),
    ("SQUARE", SQUARE),
    // Ann's circuit on the line, and another way to the third router, which is dearer.
    (
        "OVER_LINE",
        r#"1400 {"identity":"ann","service":"web"} -> {"circuit":1,"ingress":"r1","links":[1,2],"terminator":1,"total":42}"#,
    ),
    (
        "DEAR_LINK",
        r#"1200 {"name":"l3","a":"r1","b":"r3","cost":60} -> {"no":3}"#,
    ),
    // The circuit is shown over the line, over the dear link, and no more.
    (
        "ON_LINE",
        r#"1503 {"no":1} -> {"identity":"ann","ingress":"r1","links":[1,2],"service":"web","terminator":1}"#,
    ),
    (
        "ON_DEAR_LINK",
        r#"1503 {"no":1} -> {"identity":"ann","ingress":"r1","links":[3],"service":"web","terminator":1}"#,
    ),
    (
        "GONE",
        r#"1503 {"no":1} -> {"code":21,"field":"no","name":"Unknown"}"#,
    ),
    // No path may pass through the second router, and paths may again.
    (
        "CLOSED",
        r#"1021 {"name":"r2","attributes":[],"cost":0,"no_traversal":true} -> {}"#,
    ),
    (
        "OPENED",
        r#"1021 {"name":"r2","attributes":[],"cost":0,"no_traversal":false} -> {}"#,
    ),
    // The second circuit is shown over its link, and no more. It goes where the second router is off, at which the other one goes over the
    // dear link.
    (
        "SECOND_ON_LINK",
        r#"1503 {"no":2} -> {"identity":"ann","ingress":"r1","links":[1],"service":"web","terminator":2}"#,
    ),
    (
        "SECOND_GONE",
        r#"1503 {"no":2} -> {"code":21,"field":"no","name":"Unknown"}"#,
    ),
    ("SECOND_OFF", r#"1024 {"name":"r2"} -> {}"#),
    // An identity gets an attribute, and loses it.
    (
        "TAKES_TURNS",
        "1001 {\"name\":\"u1\",\"attributes\":[\"a\",\"x\"]} -> {}\n1001 {\"name\":\"u1\",\"attributes\":[\"a\"]} -> {}",
    ),
];
