//! Two files of `examples/`, command by command, as texts of rows.

/// Of `examples/network.lines`, the small network of the README. Ann may dial the service web, which is offered behind the router r2, and enters by
/// r1. Her circuit is opened, shown and explained, a name is taken, a body is no JSON, and the link goes down, with which the circuit ends.
pub(crate) const SMALL_NETWORK: &str = r##"
1000 {"attributes":["staff"],"name":"ann"} -> {"no":1}
1010 {"attributes":["apps"],"name":"web"} -> {"no":1}
1020 {"name":"r1"} -> {"no":1}
1020 {"name":"r2"} -> {"no":2}
1023 {"name":"r1"} -> {}
1023 {"name":"r2"} -> {}
1200 {"a":"r1","b":"r2","cost":11,"name":"l1"} -> {"no":1}
1100 {"identity_roles":["#staff"],"name":"dial","semantic":"AnyOf","service_roles":["#apps"],"type":"Dial"} -> {"no":1}
1110 {"identity_roles":["#all"],"name":"edges","router_roles":["@r1"],"semantic":"AnyOf"} -> {"no":1}
1120 {"name":"services","router_roles":["#all"],"semantic":"AnyOf","service_roles":["#all"]} -> {"no":1}
1300 {"router":"r2","service":"web"} -> {"no":1}
1400 {"identity":"ann","service":"web"} -> {"circuit":1,"ingress":"r1","links":[1],"terminator":1,"total":21}
1500 {"identity":"ann"} -> {"bind":[],"dial":[["web",1]],"routers":[["r1",1]]}
1502 {} -> {"circuits":1,"grants":4,"identities":1,"links":1,"policies":3,"routers":2,"services":1,"terminators":1}
1000 {"name":"ann"} -> {"code":20,"name":"Exists"}
1020 r3 -> {"code":11,"field":"","name":"BadBody","reason":"NotObject"}
1402 {"identity":"ann","service":"web"} -> {"ingress":"r1","links":[1],"potentials":[{"router":2,"values":[21,0]}],"routers":[1,2],"terminator":1,"total":22}
1203 {"link":"l1","router":"r1","up":false} -> {}
1400 {"identity":"ann","service":"web"} -> {"code":38,"name":"NoPath"}
1502 {} -> {"circuits":0,"grants":4,"identities":1,"links":1,"policies":3,"routers":2,"services":1,"terminators":1}
"##;

/// Of `examples/claims.lines`: two services claim one network, and ann asks to which of them a destination belongs, to the nearest. Then the two
/// clash; then she may dial one of them alone, whose intercept is cleared.
pub(crate) const CLAIMS: &str = r##"
1000 {"attributes":["staff"],"name":"ann"} -> {"no":1}
1010 {"name":"web"} -> {"no":1}
1010 {"name":"api"} -> {"no":2}
1100 {"identity_roles":["#staff"],"name":"dial-web","semantic":"AnyOf","service_roles":["@web"],"type":"Dial"} -> {"no":1}
1100 {"identity_roles":["#staff"],"name":"dial-api","semantic":"AnyOf","service_roles":["@api"],"type":"Dial"} -> {"no":2}
1600 {"addresses":["10.0.0.0/8"],"ports":[[22,22]],"protocols":["tcp"],"service":"web"} -> {}
1600 {"addresses":["10.1.2.9/16"],"ports":[[22,22]],"protocols":["tcp"],"service":"api"} -> {}
1610 {"address":"10.1.2.3","identity":"ann","port":22,"protocol":"tcp"} -> {"address":"10.1.0.0/16","high":22,"low":22,"service":"api"}
1610 {"address":"10.2.0.1","identity":"ann","port":22,"protocol":"tcp"} -> {"address":"10.0.0.0/8","high":22,"low":22,"service":"web"}
1610 {"address":"10.1.2.3","identity":"ann","port":22,"protocol":"udp"} -> {"code":50,"name":"NoIntercept"}
1610 {"address":"10.1.0.0/16","identity":"ann","port":22,"protocol":"tcp"} -> {"code":11,"field":"address","name":"BadBody","reason":"WrongKind"}
1600 {"addresses":["10.0.0.0/8"],"ports":[[22,22],[1,1024]],"protocols":["tcp","udp"],"service":"api"} -> {}
1611 {"identity":"ann","service":"web"} -> {"clashes":["api"]}
1610 {"address":"10.1.2.3","identity":"ann","port":22,"protocol":"tcp"} -> {"address":"10.0.0.0/8","high":22,"low":22,"service":"web"}
1610 {"address":"10.1.2.3","identity":"ann","port":80,"protocol":"tcp"} -> {"address":"10.0.0.0/8","high":1024,"low":1,"service":"api"}
1102 {"name":"dial-web"} -> {}
1610 {"address":"10.1.2.3","identity":"ann","port":22,"protocol":"tcp"} -> {"address":"10.0.0.0/8","high":22,"low":22,"service":"api"}
1611 {"identity":"ann","service":"api"} -> {"clashes":[]}
1601 {"service":"api"} -> {}
1610 {"address":"10.1.2.3","identity":"ann","port":22,"protocol":"tcp"} -> {"code":50,"name":"NoIntercept"}
1601 {"service":"tea"} -> {"code":21,"field":"service","name":"Unknown"}
"##;
