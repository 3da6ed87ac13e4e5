//! Runs of circuits that end with what granted them, and of terminators that get dearer with each circuit that is open there.

use crate::checks::check_runs;
use std::test::Fail;

const LOADS: &str = r##"
# Requests take turns between terminators of one cost; each circuit adds 1 to what its terminator costs, and takes it away when it goes.
PAIR ENTRY LINE
1300 {"service":"web","router":"r3"} -> {"no":2}
OVER_LINE
1400 {"identity":"ann","service":"web"} -> {"circuit":2,"ingress":"r1","links":[1,2],"terminator":2,"total":42}
1400 {"identity":"ann","service":"web"} -> {"circuit":3,"ingress":"r1","links":[1,2],"terminator":1,"total":43}
1402 {"identity":"ann","service":"web"} -> {"ingress":"r1","links":[1,2],"potentials":[{"router":3,"values":[42,21,0]}],"routers":[1,2,3],"terminator":2,"total":43}
1401 {"no":1} -> {}
1401 {"no":3} -> {}
1400 {"identity":"ann","service":"web"} -> {"circuit":4,"ingress":"r1","links":[1,2],"terminator":1,"total":42}
1301 {"no":1,"cost":5,"precedence":"default"} -> {}
1400 {"identity":"ann","service":"web"} -> {"circuit":5,"ingress":"r1","links":[1,2],"terminator":2,"total":43}

# A load weighs as a static cost does, and less than a precedence; and a claim of the total without it is not justified.
PAIR ENTRY LINE
OVER_LINE
1403 {"identity":"ann","service":"web","chosen":"r1","links":[1,2],"potentials":[{"router":3,"values":[42,21,0]}],"routers":[1,2,3],"terminator":1,"total":42} -> {"certified":false}
1403 {"identity":"ann","service":"web","chosen":"r1","links":[1,2],"potentials":[{"router":3,"values":[42,21,0]}],"routers":[1,2,3],"terminator":1,"total":43} -> {"certified":true}
1300 {"service":"web","router":"r3","precedence":"failed"} -> {"no":2}
1400 {"identity":"ann","service":"web"} -> {"circuit":2,"ingress":"r1","links":[1,2],"terminator":1,"total":43}
1402 {"identity":"ann","service":"web"} -> {"ingress":"r1","links":[1,2],"potentials":[{"router":3,"values":[42,21,0]}],"routers":[1,2,3],"terminator":1,"total":44}
"##;

const REVOKED: &str = r##"
# Ann's circuit ends with the one policy by which she may dial, and is not there again when another one comes.
PAIR ENTRY LINE
OVER_LINE
1102 {"name":"d"} -> {}
GONE
1100 {"name":"d","type":"Dial","semantic":"AnyOf","identity_roles":["@ann"],"service_roles":["@web"]} -> {"no":2}
GONE

# It ends with the policy by which its ingress is hers.
PAIR ENTRY LINE
OVER_LINE
1112 {"name":"e"} -> {}
GONE
1400 {"identity":"ann","service":"web"} -> {"code":34,"name":"NoSharedRouter"}

# And it ends with the policy by which its ingress is the service's.
PAIR ENTRY LINE
OVER_LINE
1122 {"name":"s"} -> {}
GONE
1400 {"identity":"ann","service":"web"} -> {"code":34,"name":"NoSharedRouter"}

# Two policies grant the pair: it stays with either of them, and ends once an attribute takes the last one away.
PAIR ENTRY LINE
1100 {"name":"too","type":"Dial","semantic":"AllOf","identity_roles":["#staff"],"service_roles":["#all"]} -> {"no":2}
1001 {"name":"ann","attributes":["staff"]} -> {}
OVER_LINE
1102 {"name":"d"} -> {}
ON_LINE
1001 {"name":"ann","attributes":["staff","night"]} -> {}
ON_LINE
1001 {"name":"ann","attributes":["night"]} -> {}
GONE

# A circuit to a host's terminator ends where the host loses Bind, though the terminator stays. The other circuit stays.
PAIR ENTRY LINE
OVER_LINE
1000 {"name":"h"} -> {"no":2}
1110 {"name":"f","semantic":"AnyOf","identity_roles":["@h"],"router_roles":["@r1"]} -> {"no":2}
1100 {"name":"b","type":"Bind","semantic":"AnyOf","identity_roles":["@h"],"service_roles":["@web"]} -> {"no":2}
1300 {"service":"web","router":"r1","host":"h"} -> {"no":2}
1400 {"identity":"ann","service":"web"} -> {"circuit":2,"ingress":"r1","links":[],"terminator":2,"total":0}
1102 {"name":"b"} -> {}
SECOND_GONE
ON_LINE

# What is revoked is not rerouted, and what grants others ends nothing.
PAIR ENTRY LINE
OVER_LINE
DEAR_LINK
1000 {"name":"bob"} -> {"no":2}
1101 {"name":"d","type":"Dial","semantic":"AnyOf","identity_roles":["@bob"],"service_roles":["@web"]} -> {}
GONE
1400 {"identity":"ann","service":"web"} -> {"code":33,"name":"NoDial"}
1502 {} -> {"circuits":0,"grants":5,"identities":2,"links":3,"policies":3,"routers":3,"services":1,"terminators":1}
"##;

#[test]
fn adds_loads_to_costs_and_ends_with_what_granted(rt: HostRuntime) -> Result<(), Fail> {
    for runs in [LOADS, REVOKED] {
        check_runs(&rt, rt.alloc(), runs)?;
    }
    Ok(())
}
