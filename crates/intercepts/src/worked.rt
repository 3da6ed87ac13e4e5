ghost use Rattle.std.specs.Prelude.{◌≡◌, ◌++◌, [], ◌∷◌, codes, true, false, None, Some};
ghost use Rattle.std.specs.List.{last_or};
ghost use Rattle.ctrl_model.specs.declared.addresses.Address.TheVariants.{Host, Under};
ghost use Rattle.ctrl_model.specs.Hits.{picked, clashes, do_clash};
ghost use Rattle.ctrl_model.specs.Numbered.{at, numbers, with_at, without};
ghost use Rattle.model_laws.specs.WorkedIntercepts.{ports, over_tcp, over_udp, web_and_api, both_under, overlapping};
ghost use Rattle.intercepts.specs.FirstHits.{first_with};

/// Each intercept stands under its service's number, whichever is set first. One that is set again stands in the place of the other.
pub fn intercepts_by_service()
    ensures first { numbers (with_at 1 (over_udp (Host (codes "a") ∷ []) (ports 1 1 ∷ [])) (without web_and_api 1)) ≡ 1 ∷ 2 ∷ [] }
    ensures between { numbers (with_at 2 (over_udp (Host (codes "a") ∷ []) (ports 1 1 ∷ [])) (with_at 7 (over_udp (Host (codes "a") ∷ []) (ports 1 1 ∷ [])) (without web_and_api 2))) ≡ 1 ∷ 2 ∷ 7 ∷ [] }
    ensures again { at (with_at 2 (over_udp (Host (codes "a") ∷ []) (ports 1 1 ∷ [])) web_and_api) 2 ≡ Some (over_udp (Host (codes "a") ∷ []) (ports 1 1 ∷ [])) }
    ensures other { at (with_at 2 (over_udp (Host (codes "a") ∷ []) (ports 1 1 ∷ [])) web_and_api) 1 ≡ Some (over_tcp (Under (codes "example.org") ∷ []) (ports 443 443 ∷ [])) }
    ensures removed { numbers (without web_and_api 1) ≡ 2 ∷ [] }
    ensures absent { without web_and_api 3 ≡ web_and_api }
    ensures last { last_or None (numbers web_and_api) ≡ Some 2 }
    ensures last_of_none { last_or None (numbers (without (without web_and_api 1) 2)) ≡ None }
{}

/// Of services with the same address and range the lowest is picked, in whichever order they are given; and one hit stays the first where
/// another is equal to it.
pub fn services_that_are_picked()
    ensures turned { picked overlapping (2 ∷ 1 ∷ []) false (Host (codes "a.b.org")) 55 ≡ Some (record { service = 1; near = 1; address = Under (codes "b.org"); ports = ports 50 60 }) }
    ensures alone { picked overlapping (2 ∷ []) false (Host (codes "a.b.org")) 55 ≡ Some (record { service = 2; near = 1; address = Under (codes "b.org"); ports = ports 50 60 }) }
    ensures none { picked overlapping [] false (Host (codes "a.b.org")) 55 ≡ None }
    ensures nearer { first_with (Some (record { service = 1; near = 2; address = Under (codes "org"); ports = ports 50 60 })) (record { service = 2; near = 1; address = Under (codes "b.org"); ports = ports 1 100 } ∷ [])
        ≡ Some (record { service = 2; near = 1; address = Under (codes "b.org"); ports = ports 1 100 }) }
    ensures farther { first_with (Some (record { service = 2; near = 1; address = Under (codes "b.org"); ports = ports 1 100 })) (record { service = 1; near = 2; address = Under (codes "org"); ports = ports 50 60 } ∷ [])
        ≡ Some (record { service = 2; near = 1; address = Under (codes "b.org"); ports = ports 1 100 }) }
    ensures equal { first_with (Some (record { service = 1; near = 1; address = Under (codes "b.org"); ports = ports 1 1 })) (record { service = 1; near = 1; address = Host (codes "b.org"); ports = ports 1 1 } ∷ [])
        ≡ Some (record { service = 1; near = 1; address = Under (codes "b.org"); ports = ports 1 1 }) }
{}

/// Clashes are told in the order in which services are given. A service does not clash with itself, and one protocol in common is enough.
pub fn services_that_clash()
    ensures turned { clashes (both_under ++ (3, over_tcp (Under (codes "example.org") ∷ []) (ports 443 443 ∷ [])) ∷ []) (3 ∷ 1 ∷ 2 ∷ []) 2 ≡ 3 ∷ 1 ∷ [] }
    ensures itself { clashes both_under (1 ∷ []) 1 ≡ [] }
    ensures one_protocol { do_clash (record { tcp = true; udp = true; addresses = Host (codes "a") ∷ []; ports = ports 1 2 ∷ [] }) (over_udp (Host (codes "b") ∷ Host (codes "a") ∷ []) (ports 3 4 ∷ ports 1 2 ∷ [])) ≡ true }
{}
