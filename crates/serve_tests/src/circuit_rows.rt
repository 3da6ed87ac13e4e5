//! Runs of circuit requests, of explanations and of claims.

use crate::checks::check_runs;
use std::test::Fail;

const ROUTES: &str = r##"
# The route is explained, claims are verified, and a cheaper terminator makes the claim an old one.
PAIR ENTRY LINE
1402 {"identity":"ann","service":"web"} -> {"ingress":"r1","links":[1,2],"potentials":[{"router":3,"values":[42,21,0]}],"routers":[1,2,3],"terminator":1,"total":42}
1403 {"identity":"ann","service":"web","chosen":"r1","links":[1,2],"potentials":[{"router":3,"values":[42,21,0]}],"routers":[1,2,3],"terminator":1,"total":42} -> {"certified":true}
1403 {"identity":"ann","service":"web","chosen":"r1","links":[1,2],"potentials":[{"router":3,"values":[41,21,0]}],"routers":[1,2,3],"terminator":1,"total":42} -> {"certified":false}
1300 {"service":"web","router":"r1","cost":7} -> {"no":2}
1403 {"identity":"ann","service":"web","chosen":"r1","links":[1,2],"potentials":[{"router":3,"values":[42,21,0]}],"routers":[1,2,3],"terminator":1,"total":42} -> {"certified":false}
1400 {"identity":"ann","service":"web"} -> {"circuit":1,"ingress":"r1","links":[],"terminator":2,"total":7}
1502 {} -> {"circuits":1,"grants":5,"identities":1,"links":2,"policies":3,"routers":3,"services":1,"terminators":2}

# A circuit ends where its path does and there is no other, and the next request finds a way that came later.
PAIR ENTRY LINE
OVER_LINE
ON_LINE
CLOSED
GONE
1400 {"identity":"ann","service":"web"} -> {"code":38,"name":"NoPath"}
DEAR_LINK
1400 {"identity":"ann","service":"web"} -> {"circuit":2,"ingress":"r1","links":[3],"terminator":1,"total":70}
1401 {"no":2} -> {}
1401 {"no":2} -> {"code":21,"field":"no","name":"Unknown"}

# A required terminator without a path, a default one that is dear, and a failed one that is cheap. The explanation has an entry for the routers of the first two, to the first of which no path leads.
PAIR ENTRY LINE
1302 {"no":1} -> {}
1020 {"name":"r4"} -> {"no":4}
1300 {"service":"web","router":"r4","precedence":"required"} -> {"no":2}
1300 {"service":"web","router":"r3","cost":500} -> {"no":3}
1300 {"service":"web","router":"r1","precedence":"failed"} -> {"no":4}
1023 {"name":"r4"} -> {}
1402 {"identity":"ann","service":"web"} -> {"ingress":"r1","links":[1,2],"potentials":[{"router":3,"values":[42,21,0,null]},{"router":4,"values":[null,null,null,0]}],"routers":[1,2,3,4],"terminator":3,"total":542}
1400 {"identity":"ann","service":"web"} -> {"circuit":1,"ingress":"r1","links":[1,2],"terminator":3,"total":542}
1302 {"no":3} -> {}
1400 {"identity":"ann","service":"web"} -> {"circuit":2,"ingress":"r1","links":[],"terminator":4,"total":0}

# Of two ways of one cost the one is taken whose links come first.
PAIR ENTRY SQUARE
"##;

const DENIALS: &str = r##"
# A host serves while it has Bind, and again once it has it again.
PAIR ENTRY LINE
1302 {"no":1} -> {}
1000 {"name":"h"} -> {"no":2}
1110 {"name":"f","semantic":"AnyOf","identity_roles":["@h"],"router_roles":["@r1"]} -> {"no":2}
1100 {"name":"b","type":"Bind","semantic":"AnyOf","identity_roles":["@h"],"service_roles":["@web"]} -> {"no":2}
1300 {"service":"web","router":"r1","host":"h"} -> {"no":2}
1400 {"identity":"ann","service":"web"} -> {"circuit":1,"ingress":"r1","links":[],"terminator":2,"total":0}
1102 {"name":"b"} -> {}
1400 {"identity":"ann","service":"web"} -> {"code":37,"name":"NoAdmissibleTerminator"}
1100 {"name":"b","type":"Bind","semantic":"AnyOf","identity_roles":["@h"],"service_roles":["@web"]} -> {"no":3}
1400 {"identity":"ann","service":"web"} -> {"circuit":2,"ingress":"r1","links":[],"terminator":2,"total":0}

# Each rule of a request fails once, with a later one that fails beside it.
1400 {"identity":"q","service":"q"} -> {"code":30,"name":"UnknownIdentity"}
1000 {"name":"ann"} -> {"no":1}
1400 {"identity":"ann","service":"q","ingress":"q"} -> {"code":31,"name":"UnknownService"}
1010 {"name":"web"} -> {"no":1}
1400 {"identity":"ann","service":"web","ingress":"q"} -> {"code":32,"name":"UnknownRouter"}
1400 {"identity":"ann","service":"web"} -> {"code":33,"name":"NoDial"}
1100 {"name":"d","type":"Dial","semantic":"AnyOf","identity_roles":["@ann"],"service_roles":["@web"]} -> {"no":1}
1400 {"identity":"ann","service":"web"} -> {"code":34,"name":"NoSharedRouter"}
1020 {"name":"r1"} -> {"no":1}
1110 {"name":"e","semantic":"AnyOf","identity_roles":["@ann"],"router_roles":["@r1"]} -> {"no":1}
1120 {"name":"s","semantic":"AnyOf","service_roles":["#all"],"router_roles":["#all"]} -> {"no":1}
1400 {"identity":"ann","service":"web"} -> {"code":35,"name":"SharedRoutersOffline"}
1023 {"name":"r1"} -> {}
1024 {"name":"r1"} -> {}
1400 {"identity":"ann","service":"web"} -> {"code":35,"name":"SharedRoutersOffline"}
1023 {"name":"r1"} -> {}
1020 {"name":"r2"} -> {"no":2}
1300 {"service":"web","router":"r2"} -> {"no":1}
1400 {"identity":"ann","service":"web","instance":"blue"} -> {"code":36,"name":"NoTerminators"}
1400 {"identity":"ann","service":"web"} -> {"code":37,"name":"NoAdmissibleTerminator"}
1023 {"name":"r2"} -> {}
1400 {"identity":"ann","service":"web"} -> {"code":38,"name":"NoPath"}
1402 {"identity":"ann","service":"web"} -> {"code":38,"name":"NoPath"}
"##;

#[test]
fn grants_the_least_route_or_denies_by_the_first_rule_that_fails(
    rt: HostRuntime,
) -> Result<(), Fail> {
    for runs in [ROUTES, DENIALS] {
        check_runs(&rt, rt.alloc(), runs)?;
    }
    Ok(())
}
