//! Runs of circuits whose path fails: what another path takes over, what ends, and what stays.

use crate::checks::check_runs;
use std::test::Fail;

const OVER_OTHER_PATHS: &str = r##"
# A circuit goes over the dear link once its path fails, stays there once that is a path again, and goes back once the link goes.
PAIR ENTRY LINE
OVER_LINE
DEAR_LINK
ON_LINE
CLOSED
ON_DEAR_LINK
OPENED
ON_DEAR_LINK
1204 {"link":"l3"} -> {}
ON_LINE

# Of two ways the cheaper one is taken, which is not the first one. Where its own one gets dearer, or another one cheaper, the circuit stays; and the costs of that time say which way it goes next.
PAIR ENTRY LINE
OVER_LINE
DEAR_LINK
1200 {"name":"l4","a":"r3","b":"r1","cost":10,"latency_a":20,"latency_b":29} -> {"no":4}
ON_LINE
1203 {"link":"l2","router":"r3","up":false} -> {}
1503 {"no":1} -> {"identity":"ann","ingress":"r1","links":[4],"service":"web","terminator":1}
1201 {"link":"l3","cost":1} -> {}
1503 {"no":1} -> {"identity":"ann","ingress":"r1","links":[4],"service":"web","terminator":1}
1202 {"link":"l4","router":"r1","latency":60000} -> {}
1503 {"no":1} -> {"identity":"ann","ingress":"r1","links":[4],"service":"web","terminator":1}
1203 {"link":"l2","router":"r2","up":true} -> {}
1503 {"no":1} -> {"identity":"ann","ingress":"r1","links":[4],"service":"web","terminator":1}
1204 {"link":"l4"} -> {}
ON_DEAR_LINK
1502 {} -> {"circuits":1,"grants":5,"identities":1,"links":3,"policies":3,"routers":3,"services":1,"terminators":1}

# Two circuits of one path move together.
PAIR ENTRY LINE
OVER_LINE
1400 {"identity":"ann","service":"web"} -> {"circuit":2,"ingress":"r1","links":[1,2],"terminator":1,"total":43}
DEAR_LINK
1204 {"link":"l2"} -> {}
ON_DEAR_LINK
1503 {"no":2} -> {"identity":"ann","ingress":"r1","links":[3],"service":"web","terminator":1}
1502 {} -> {"circuits":2,"grants":5,"identities":1,"links":2,"policies":3,"routers":3,"services":1,"terminators":1}

# Of ways that cost the same the one is taken whose links come first, link by link, however many they are: 2 and 3 before 2 and 6 and before 5 alone; and then 1 and 4 before 5. An equal way that comes first moves no circuit.
PAIR ENTRY SQUARE
1200 {"name":"l5","a":"r1","b":"r4","cost":32} -> {"no":5}
1200 {"name":"l6","a":"r4","b":"r3","cost":11} -> {"no":6}
1203 {"link":"l1","router":"r2","up":false} -> {}
1503 {"no":1} -> {"identity":"ann","ingress":"r1","links":[2,3],"service":"web","terminator":1}
1203 {"link":"l1","router":"r1","up":true} -> {}
1503 {"no":1} -> {"identity":"ann","ingress":"r1","links":[2,3],"service":"web","terminator":1}
1204 {"link":"l2"} -> {}
1503 {"no":1} -> {"identity":"ann","ingress":"r1","links":[1,4],"service":"web","terminator":1}
1022 {"name":"r2"} -> {}
1503 {"no":1} -> {"identity":"ann","ingress":"r1","links":[5],"service":"web","terminator":1}
1502 {} -> {"circuits":1,"grants":5,"identities":1,"links":3,"policies":3,"routers":3,"services":1,"terminators":1}

# The routers on a way count: by the third one it costs 82, and the direct link 80.
PAIR ENTRY SQUARE
1021 {"name":"r3","attributes":[],"cost":50,"no_traversal":false} -> {}
1200 {"name":"l5","a":"r1","b":"r4","cost":70} -> {"no":5}
1204 {"link":"l1"} -> {}
1503 {"no":1} -> {"identity":"ann","ingress":"r1","links":[5],"service":"web","terminator":1}

# No way leads through a router that no path may pass.
PAIR ENTRY SQUARE
1021 {"name":"r3","attributes":[],"cost":0,"no_traversal":true} -> {}
1503 {"no":1} -> {"identity":"ann","ingress":"r1","links":[1,4],"service":"web","terminator":1}
1204 {"link":"l1"} -> {}
GONE
"##;

const WITHOUT_A_PATH: &str = r##"
# A circuit whose ingress is off ends, though there is another way, and none comes back with it.
PAIR ENTRY LINE
OVER_LINE
DEAR_LINK
1024 {"name":"r1"} -> {}
GONE
1023 {"name":"r1"} -> {}
GONE

# Without another way a circuit ends too, and does not come back.
PAIR ENTRY LINE
OVER_LINE
1024 {"name":"r1"} -> {}
GONE
1023 {"name":"r1"} -> {}
GONE

# A circuit whose terminator goes ends, though its path stands and another terminator is on the same router; and one whose identity goes.
PAIR ENTRY LINE
OVER_LINE
DEAR_LINK
1300 {"service":"web","router":"r3"} -> {"no":2}
1302 {"no":1} -> {}
GONE
1400 {"identity":"ann","service":"web"} -> {"circuit":2,"ingress":"r1","links":[1,2],"terminator":2,"total":42}
1002 {"name":"ann"} -> {}
SECOND_GONE
1502 {} -> {"circuits":0,"grants":3,"identities":0,"links":3,"policies":3,"routers":3,"services":1,"terminators":1}

# A circuit goes with its service, and so does the terminator.
PAIR ENTRY LINE
OVER_LINE
1012 {"name":"web"} -> {}
GONE
1502 {} -> {"circuits":0,"grants":1,"identities":1,"links":2,"policies":3,"routers":3,"services":0,"terminators":0}
"##;

const EACH_BY_ITSELF: &str = r##"
# Behind the two circuits a third one that needs no link. By one command one moves, one ends and one stays.
PAIR ENTRY LINE TWO_CIRCUITS
1300 {"service":"web","router":"r1"} -> {"no":3}
1400 {"identity":"ann","service":"web"} -> {"circuit":3,"ingress":"r1","links":[],"terminator":3,"total":0}
ON_LINE
SECOND_ON_LINK
SECOND_OFF
ON_DEAR_LINK
SECOND_GONE
1503 {"no":3} -> {"identity":"ann","ingress":"r1","links":[],"service":"web","terminator":3}
1023 {"name":"r2"} -> {}
SECOND_GONE
1502 {} -> {"circuits":2,"grants":5,"identities":1,"links":3,"policies":3,"routers":3,"services":1,"terminators":3}

# With the router in the middle its links go, and the terminator there with the circuit to it. The other circuit goes on.
PAIR ENTRY LINE TWO_CIRCUITS
1022 {"name":"r2"} -> {}
ON_DEAR_LINK
SECOND_GONE
1502 {} -> {"circuits":1,"grants":4,"identities":1,"links":1,"policies":3,"routers":2,"services":1,"terminators":1}
"##;

#[test]
fn goes_over_the_least_path_or_ends_where_its_own_fails(rt: HostRuntime) -> Result<(), Fail> {
    for runs in [OVER_OTHER_PATHS, WITHOUT_A_PATH, EACH_BY_ITSELF] {
        check_runs(&rt, rt.alloc(), runs)?;
    }
    Ok(())
}
