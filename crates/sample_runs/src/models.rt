//! A realistic network: 300 identities, 40 services, 12 routers with 30 links, 25 policies, 40 terminators and 200 circuits.

use crate::frames::push_request;
use crate::repeating::{filled, range_of};
use std::alloc::{AllocError, Global};

/// Its frames, a line for those of one kind: the numbers from a first one to before a last one, the content type, and the body, in which the number stands
/// between two `$`, behind some steps. Each identity is in one of five groups, and the first 40 are hosts; each service is in one of four classes; eight
/// routers are at the edge and four in the core. From each router at the edge a link goes to three in the core, and links go within the core. Each group may
/// dial each class of services, by a policy of its own. Hosts may bind every service; routers at the edge are there for all, and those in the core for hosts
/// and for one class. Each service is offered at a router in the core. At last the counts are asked for.
const MODEL: &str = r##"
1..41 1000 {"name":"u$$","attributes":["g$%5$","host"]}
41..301 1000 {"name":"u$$","attributes":["g$%5$"]}
1..41 1010 {"name":"s$$","attributes":["c$%4$"]}
1..9 1020 {"name":"r$$","attributes":["edge"]}
9..13 1020 {"name":"r$$","attributes":["core"]}
1..13 1023 {"name":"r$$"}
0..24 1200 {"name":"l$+1$","a":"r$/3 +1$","b":"r$%3 +9$"}
10..13 1200 {"name":"l$+15$","a":"r9","b":"r$$"}
11..13 1200 {"name":"l$+17$","a":"r10","b":"r$$"}
12..13 1200 {"name":"l30","a":"r11","b":"r12"}
0..20 1100 {"name":"p$+1$","type":"Dial","semantic":"AnyOf","identity_roles":["#g$/4$"],"service_roles":["#c$%4$"]}
21..22 1100 {"name":"p21","type":"Bind","semantic":"AnyOf","identity_roles":["#host"],"service_roles":["#all"]}
22..23 1110 {"name":"p22","semantic":"AnyOf","identity_roles":["#all"],"router_roles":["#edge"]}
23..24 1110 {"name":"p23","semantic":"AnyOf","identity_roles":["#host"],"router_roles":["#core"]}
24..25 1120 {"name":"p24","semantic":"AnyOf","service_roles":["#all"],"router_roles":["#edge"]}
25..26 1120 {"name":"p25","semantic":"AnyOf","service_roles":["#c0"],"router_roles":["#core"]}
1..41 1300 {"service":"s$$","router":"r$%4 +9$"}
0..200 1400 {"identity":"u$+1$","service":"s$%40 +1$"}
0..1 1502 {}
"##;

// Puts a frame for each number of a line.
fn push_line(alloc: Global, bytes: &mut Vec<u8>, line: &str) -> Result<(), AllocError> {
    let (numbers, frame) = line.split_once(' ').unwrap_or((line, ""));
    let (content, body) = frame.split_once(' ').unwrap_or((frame, ""));
    let content = content.parse::<u32>().unwrap_or(0);
    'numbers: for number in range_of(numbers) {
        let body = filled(alloc, body, number)?;
        push_request(bytes, content, body.as_str())?;
    }
    Ok(())
}

/// Its frames.
pub fn model(alloc: Global) -> Result<Vec<u8>, AllocError> {
    let mut bytes = Vec::new(alloc);
    for line in MODEL.trim_ascii().lines() {
        push_line(alloc, &mut bytes, line)?;
    }
    Ok(bytes)
}
