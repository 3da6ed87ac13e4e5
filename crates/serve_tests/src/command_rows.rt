//! Rows of commands on policies, links, terminators and intercepts, and of what is then shown, and how many identities there may be.

use crate::checks::check_runs;
use std::test::Fail;

const POLICIES: &str = r##"
# What entries match: both attributes, one of them, a name, nothing, and `#all`, for which an attribute `all` is as any other.
1010 {"name":"web"} -> {"no":1}
1000 {"name":"ab","attributes":["a","b"]} -> {"no":1}
1000 {"name":"a","attributes":["a"]} -> {"no":2}
1000 {"name":"x"} -> {"no":3}
1100 {"name":"p","type":"Dial","semantic":"AllOf","identity_roles":["#a","#b"],"service_roles":["@web"]} -> {"no":1}
1500 {"identity":"ab"} -> {"bind":[],"dial":[["web",1]],"routers":[]}
1500 {"identity":"a"} -> {"bind":[],"dial":[],"routers":[]}
1500 {"identity":"x"} -> {"bind":[],"dial":[],"routers":[]}
1101 {"name":"p","type":"Dial","semantic":"AnyOf","identity_roles":["#a","#b"],"service_roles":["@web"]} -> {}
1500 {"identity":"ab"} -> {"bind":[],"dial":[["web",1]],"routers":[]}
1500 {"identity":"a"} -> {"bind":[],"dial":[["web",1]],"routers":[]}
1500 {"identity":"x"} -> {"bind":[],"dial":[],"routers":[]}
1101 {"name":"p","type":"Dial","semantic":"AllOf","identity_roles":["@x"],"service_roles":["@web"]} -> {}
1500 {"identity":"ab"} -> {"bind":[],"dial":[],"routers":[]}
1500 {"identity":"a"} -> {"bind":[],"dial":[],"routers":[]}
1500 {"identity":"x"} -> {"bind":[],"dial":[["web",1]],"routers":[]}
1101 {"name":"p","type":"Dial","semantic":"AllOf","identity_roles":[],"service_roles":["@web"]} -> {}
1500 {"identity":"ab"} -> {"bind":[],"dial":[],"routers":[]}
1500 {"identity":"a"} -> {"bind":[],"dial":[],"routers":[]}
1500 {"identity":"x"} -> {"bind":[],"dial":[],"routers":[]}
1101 {"name":"p","type":"Dial","semantic":"AnyOf","identity_roles":["#all","#a"],"service_roles":["@web"]} -> {"code":11,"field":"identity_roles","name":"BadBody","reason":"WrongKind"}
1101 {"name":"p","type":"Dial","semantic":"AnyOf","identity_roles":["@q"],"service_roles":["@web"]} -> {"code":23,"field":"identity_roles","name":"UnknownRef","ref":"q"}
1000 {"name":"y","attributes":["all"]} -> {"no":4}
1101 {"name":"p","type":"Dial","semantic":"AllOf","identity_roles":["#all"],"service_roles":["@web"]} -> {}
1500 {"identity":"x"} -> {"bind":[],"dial":[["web",1]],"routers":[]}
1500 {"identity":"y"} -> {"bind":[],"dial":[["web",1]],"routers":[]}

# Two policies that grant ann the same, which go one after the other.
PAIR
1100 {"name":"p","type":"Dial","semantic":"AllOf","identity_roles":["@ann"],"service_roles":["@web"]} -> {"no":1}
1100 {"name":"q","type":"Dial","semantic":"AnyOf","identity_roles":["#all"],"service_roles":["#all"]} -> {"no":2}
1500 {"identity":"ann"} -> {"bind":[],"dial":[["web",2]],"routers":[]}
1102 {"name":"p"} -> {}
1500 {"identity":"ann"} -> {"bind":[],"dial":[["web",1]],"routers":[]}
1501 {"identity":"ann"} -> {"services":["web"]}
1102 {"name":"q"} -> {}
1500 {"identity":"ann"} -> {"bind":[],"dial":[],"routers":[]}
1501 {"identity":"ann"} -> {"services":[]}

# What updates change for the pair: attributes of both sides of a policy, the routers that a policy joins to an identity, and those that one joins to services; and what goes with a policy and with a service.
PAIR
1020 {"name":"r1"} -> {"no":1}
1100 {"name":"p","type":"Dial","semantic":"AnyOf","identity_roles":["#staff"],"service_roles":["#mail"]} -> {"no":1}
1001 {"name":"ann","attributes":["staff"]} -> {}
1500 {"identity":"ann"} -> {"bind":[],"dial":[],"routers":[]}
1011 {"name":"web","attributes":["mail"]} -> {}
1500 {"identity":"ann"} -> {"bind":[],"dial":[["web",1]],"routers":[]}
1110 {"name":"e","semantic":"AnyOf","identity_roles":["@ann"],"router_roles":["#edge"]} -> {"no":1}
1500 {"identity":"ann"} -> {"bind":[],"dial":[["web",1]],"routers":[]}
1111 {"name":"e","semantic":"AnyOf","identity_roles":["@ann"],"router_roles":["@r1"]} -> {}
1500 {"identity":"ann"} -> {"bind":[],"dial":[["web",1]],"routers":[["r1",1]]}
1112 {"name":"e"} -> {}
1500 {"identity":"ann"} -> {"bind":[],"dial":[["web",1]],"routers":[]}
1120 {"name":"s","semantic":"AnyOf","service_roles":["#all"],"router_roles":["#all"]} -> {"no":1}
1502 {} -> {"circuits":0,"grants":2,"identities":1,"links":0,"policies":2,"routers":1,"services":1,"terminators":0}
1121 {"name":"s","semantic":"AllOf","service_roles":[],"router_roles":["#all"]} -> {}
1502 {} -> {"circuits":0,"grants":1,"identities":1,"links":0,"policies":2,"routers":1,"services":1,"terminators":0}
1122 {"name":"s"} -> {}
1502 {} -> {"circuits":0,"grants":1,"identities":1,"links":0,"policies":1,"routers":1,"services":1,"terminators":0}
1012 {"name":"web"} -> {}
1500 {"identity":"ann"} -> {"bind":[],"dial":[],"routers":[]}

# A policy by the names of the pair: an identity of the name that comes later is not meant by it.
PAIR
1100 {"name":"p","type":"Dial","semantic":"AnyOf","identity_roles":["@ann"],"service_roles":["@web"]} -> {"no":1}
1502 {} -> {"circuits":0,"grants":1,"identities":1,"links":0,"policies":1,"routers":0,"services":1,"terminators":0}
1002 {"name":"ann"} -> {}
1000 {"name":"ann"} -> {"no":2}
1500 {"identity":"ann"} -> {"bind":[],"dial":[],"routers":[]}
"##;

const BODIES: &str = r##"
# Bodies that make no identity, and why; one that has as many attributes as may be sent, and one that has one more.
1000 {} -> {"code":11,"field":"name","name":"BadBody","reason":"Missing"}
1000 {"name":"a b"} -> {"code":11,"field":"name","name":"BadBody","reason":"WrongKind"}
1000 {"name":"a","x":1} -> {"code":11,"field":"","name":"BadBody","reason":"Unknown"}
1000 [1] -> {"code":11,"field":"","name":"BadBody","reason":"NotObject"}
1000 {"name":"a","attributes":["a1","a2","a3","a4","a5","a6","a7","a8","a9","a10","a11","a12","a13","a14","a15","a16","a17","a18","a19","a20","a21","a22","a23","a24","a25","a26","a27","a28","a29","a30","a31","a32","a33","a34","a35","a36","a37","a38","a39","a40","a41","a42","a43","a44","a45","a46","a47","a48","a49","a50","a51","a52","a53","a54","a55","a56","a57","a58","a59","a60","a61","a62","a63","a64"]} -> {"no":1}
1000 {"name":"b","attributes":["a1","a2","a3","a4","a5","a6","a7","a8","a9","a10","a11","a12","a13","a14","a15","a16","a17","a18","a19","a20","a21","a22","a23","a24","a25","a26","a27","a28","a29","a30","a31","a32","a33","a34","a35","a36","a37","a38","a39","a40","a41","a42","a43","a44","a45","a46","a47","a48","a49","a50","a51","a52","a53","a54","a55","a56","a57","a58","a59","a60","a61","a62","a63","a64","a65"]} -> {"code":11,"field":"attributes","name":"BadBody","reason":"WrongKind"}
# Bodies that make no router, by what is no whole number from 0 to 65,535 and by what is no truth value; and as many roles as may be sent.
1020 {"name":"r1","cost":1.0} -> {"code":11,"field":"cost","name":"BadBody","reason":"WrongKind"}
1020 {"name":"r1","cost":1e3} -> {"code":11,"field":"cost","name":"BadBody","reason":"WrongKind"}
1020 {"name":"r1","cost":-1} -> {"code":11,"field":"cost","name":"BadBody","reason":"WrongKind"}
1020 {"name":"r1","cost":65536} -> {"code":11,"field":"cost","name":"BadBody","reason":"WrongKind"}
1020 {"name":"r1","cost":null} -> {"code":11,"field":"cost","name":"BadBody","reason":"WrongKind"}
1020 {"name":"r1","no_traversal":0} -> {"code":11,"field":"no_traversal","name":"BadBody","reason":"WrongKind"}
1100 {"name":"p","type":"Bind","semantic":"AllOf","identity_roles":["#a1","#a2","#a3","#a4","#a5","#a6","#a7","#a8","#a9","#a10","#a11","#a12","#a13","#a14","#a15","#a16","#a17","#a18","#a19","#a20","#a21","#a22","#a23","#a24","#a25","#a26","#a27","#a28","#a29","#a30","#a31","#a32","#a33","#a34","#a35","#a36","#a37","#a38","#a39","#a40","#a41","#a42","#a43","#a44","#a45","#a46","#a47","#a48","#a49","#a50","#a51","#a52","#a53","#a54","#a55","#a56","#a57","#a58","#a59","#a60","#a61","#a62","#a63","#a64"],"service_roles":["@web"]} -> {"code":23,"field":"service_roles","name":"UnknownRef","ref":"web"}
# Bodies of commands on intercepts, each with its first cause in the order of the fields.
1600 {"service":"web","protocols":[],"addresses":["1.2.3"],"ports":[[0,1]]} -> {"code":11,"field":"protocols","name":"BadBody","reason":"WrongKind"}
1600 {"service":"web","protocols":["tcp"],"addresses":["1.2.3"],"ports":[[0,1]]} -> {"code":11,"field":"addresses","name":"BadBody","reason":"WrongKind"}
1600 {"service":"web","protocols":["tcp"],"addresses":[],"ports":[[0,1]]} -> {"code":11,"field":"addresses","name":"BadBody","reason":"WrongKind"}
1600 {"service":"web","protocols":["tcp"],"addresses":["a","a","a","a","a","a","a","a","a","a","a","a","a","a","a","a","a","a","a","a","a","a","a","a","a","a","a","a","a","a","a","a","a"],"ports":[[0,1]]} -> {"code":11,"field":"addresses","name":"BadBody","reason":"WrongKind"}
1600 {"service":"web","protocols":["tcp"],"addresses":["a"],"ports":[[0,1]]} -> {"code":11,"field":"ports","name":"BadBody","reason":"WrongKind"}
1600 {"service":"web","protocols":["tcp"],"addresses":["a"],"ports":[[2,1]]} -> {"code":11,"field":"ports","name":"BadBody","reason":"WrongKind"}
1600 {"service":"web","protocols":["tcp"],"addresses":["a"],"ports":[[1]]} -> {"code":11,"field":"ports","name":"BadBody","reason":"WrongKind"}
1600 {"service":"web","protocols":["tcp"],"addresses":["a"],"ports":[[1,65536]]} -> {"code":11,"field":"ports","name":"BadBody","reason":"WrongKind"}
1601 {"service":"web","ports":[[1,1]]} -> {"code":11,"field":"","name":"BadBody","reason":"Unknown"}
1610 {"identity":"ann","protocol":"tcp","address":"10.0.0.0/8","port":0} -> {"code":11,"field":"address","name":"BadBody","reason":"WrongKind"}
1610 {"identity":"ann","protocol":"tcp","address":"a","port":0} -> {"code":11,"field":"port","name":"BadBody","reason":"WrongKind"}
1611 {"identity":"ann"} -> {"code":11,"field":"service","name":"BadBody","reason":"Missing"}
"##;

const NETWORK: &str = r##"
# Links and terminators: what is refused, what is reported, and what goes with a router and with a host.
1000 {"name":"h"} -> {"no":1}
1010 {"name":"web"} -> {"no":1}
1020 {"name":"r1"} -> {"no":1}
1020 {"name":"r2"} -> {"no":2}
1200 {"name":"l1","a":"r1","b":"r1"} -> {"code":25,"name":"SameRouter"}
1200 {"name":"l1","a":"r1","b":"q"} -> {"code":21,"field":"b","name":"Unknown"}
1200 {"name":"l1","a":"r1","b":"r2"} -> {"no":1}
1200 {"name":"l1","a":"r1","b":"q"} -> {"code":20,"name":"Exists"}
1201 {"link":"l1","cost":5} -> {}
1202 {"link":"l1","router":"r2","latency":60000} -> {}
1203 {"link":"l1","router":"q","up":false} -> {"code":21,"field":"router","name":"Unknown"}
1203 {"link":"l1","router":"r1","up":false} -> {}
1210 {"cost":20} -> {}
1300 {"service":"web","router":"r1"} -> {"no":1}
1300 {"service":"web","router":"r2","host":"h"} -> {"code":26,"name":"NotBindable"}
1100 {"name":"b","type":"Bind","semantic":"AnyOf","identity_roles":["@h"],"service_roles":["@web"]} -> {"no":1}
1300 {"service":"web","router":"r2","host":"h"} -> {"no":2}
1301 {"no":3,"cost":1,"precedence":"required"} -> {"code":21,"field":"no","name":"Unknown"}
1502 {} -> {"circuits":0,"grants":1,"identities":1,"links":1,"policies":1,"routers":2,"services":1,"terminators":2}
1022 {"name":"r1"} -> {}
1502 {} -> {"circuits":0,"grants":1,"identities":1,"links":0,"policies":1,"routers":1,"services":1,"terminators":1}
1204 {"link":"l1"} -> {"code":21,"field":"link","name":"Unknown"}
1301 {"no":2,"cost":65535,"precedence":"failed"} -> {}
1002 {"name":"h"} -> {}
1302 {"no":2} -> {"code":21,"field":"no","name":"Unknown"}
"##;

const INTERCEPTS: &str = r##"
# Who and what is absent; then two services of which the nearest address counts, whatever the ports, and udp is another protocol. They clash once they claim the same, and a service's intercept goes with it.
PAIR
1010 {"name":"api"} -> {"no":2}
1100 {"name":"d","type":"Dial","semantic":"AnyOf","identity_roles":["@ann"],"service_roles":["#all"]} -> {"no":1}
1600 {"service":"tea","protocols":["tcp"],"addresses":["a"],"ports":[[1,1]]} -> {"code":21,"field":"service","name":"Unknown"}
1601 {"service":"tea"} -> {"code":21,"field":"service","name":"Unknown"}
1610 {"identity":"eve","protocol":"tcp","address":"a","port":1} -> {"code":21,"field":"identity","name":"Unknown"}
1611 {"identity":"eve","service":"tea"} -> {"code":21,"field":"identity","name":"Unknown"}
1611 {"identity":"ann","service":"tea"} -> {"code":21,"field":"service","name":"Unknown"}
1600 {"service":"web","protocols":["tcp"],"addresses":["*.example.org"],"ports":[[443,443]]} -> {}
1600 {"service":"api","protocols":["tcp"],"addresses":["api.example.org"],"ports":[[1,65535]]} -> {}
1610 {"identity":"ann","protocol":"tcp","address":"API.example.org","port":443} -> {"address":"api.example.org","high":65535,"low":1,"service":"api"}
1610 {"identity":"ann","protocol":"tcp","address":"www.example.org","port":443} -> {"address":"*.example.org","high":443,"low":443,"service":"web"}
1610 {"identity":"ann","protocol":"tcp","address":"example.org","port":443} -> {"code":50,"name":"NoIntercept"}
1610 {"identity":"ann","protocol":"udp","address":"API.example.org","port":443} -> {"code":50,"name":"NoIntercept"}
1611 {"identity":"ann","service":"web"} -> {"clashes":[]}
1600 {"service":"api","protocols":["tcp"],"addresses":["*.example.org"],"ports":[[443,443]]} -> {}
1611 {"identity":"ann","service":"web"} -> {"clashes":["api"]}
1012 {"name":"api"} -> {}
1010 {"name":"api"} -> {"no":3}
1611 {"identity":"ann","service":"web"} -> {"clashes":[]}
1601 {"service":"api"} -> {}

# Of addresses as near the narrowest range with the port counts, of ranges as narrow the lowest, and of two hits that are alike in these the one of the lower service. What is read as the same counts once, as `10.1.2.9/16` and `10.1.0.0/16`.
PAIR
1010 {"name":"api"} -> {"no":2}
1100 {"name":"d","type":"Dial","semantic":"AnyOf","identity_roles":["@ann"],"service_roles":["#all"]} -> {"no":1}
1600 {"service":"web","protocols":["tcp"],"addresses":["*.b.org","*.org"],"ports":[[1,100],[50,60],[40,50]]} -> {}
1600 {"service":"api","protocols":["tcp"],"addresses":["*.b.org"],"ports":[[50,60]]} -> {}
1610 {"identity":"ann","protocol":"tcp","address":"a.b.org","port":55} -> {"address":"*.b.org","high":60,"low":50,"service":"web"}
1610 {"identity":"ann","protocol":"tcp","address":"a.b.org","port":50} -> {"address":"*.b.org","high":50,"low":40,"service":"web"}
1610 {"identity":"ann","protocol":"tcp","address":"a.b.org","port":70} -> {"address":"*.b.org","high":100,"low":1,"service":"web"}
1610 {"identity":"ann","protocol":"tcp","address":"a.b.org","port":101} -> {"code":50,"name":"NoIntercept"}
1610 {"identity":"ann","protocol":"tcp","address":"b.org","port":55} -> {"address":"*.org","high":60,"low":50,"service":"web"}
1611 {"identity":"ann","service":"api"} -> {"clashes":["web"]}
1600 {"service":"web","protocols":["udp","tcp"],"addresses":["0.0.0.0/0","10.1.2.9/16","10.0.0.0/8","10.1.0.0/16"],"ports":[[22,22]]} -> {}
1610 {"identity":"ann","protocol":"udp","address":"10.1.2.3","port":22} -> {"address":"10.1.0.0/16","high":22,"low":22,"service":"web"}
1610 {"identity":"ann","protocol":"tcp","address":"10.2.0.1/32","port":22} -> {"address":"10.0.0.0/8","high":22,"low":22,"service":"web"}
1610 {"identity":"ann","protocol":"tcp","address":"9.9.9.9","port":22} -> {"address":"0.0.0.0/0","high":22,"low":22,"service":"web"}
1012 {"name":"web"} -> {}
1610 {"identity":"ann","protocol":"tcp","address":"9.9.9.9","port":22} -> {"code":50,"name":"NoIntercept"}
"##;

/// As many identities as there may be get a number each, and one more is refused.
const CROWD: &str = r#"
each 1..2049 1000 {"name":"i$$"} -> {"no":$$}
1000 {"name":"late"} -> {"code":24,"kind":"identity","name":"Full"}
"#;

#[test]
fn answers_commands(rt: HostRuntime) -> Result<(), Fail> {
    for runs in [POLICIES, BODIES, NETWORK, INTERCEPTS, CROWD] {
        check_runs(&rt, rt.alloc(), runs)?;
    }
    Ok(())
}
