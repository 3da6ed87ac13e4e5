ghost use Rattle.std.specs.Prelude.{◌≡◌, ◌∷◌, None, Some, [], true, false, codes, replicate};
ghost use Rattle.ctrl_model.specs.declared.addresses.Address.TheVariants.{Host, Under, Range};
ghost use Rattle.ctrl_model.specs.AddressForm.{is_address, same_address};
ghost use Rattle.ctrl_model.specs.InterceptForm.{is_intercept, is_port_range, is_without_repeats, same_ports};
ghost use Rattle.ctrl_model.specs.Hits.{labels_before, nearness, hits, hit_rank, picked, do_clash, clashes};
ghost use Rattle.model_laws.specs.WorkedIntercepts.{ports, over_tcp, over_udp, web_and_api, both_under, two_networks, overlapping};

/// How near addresses are to destinations: hosts, what is under them, and ranges.
pub fn near_addresses()
    ensures itself { nearness (Host (codes "a.b.org")) (Host (codes "a.b.org")) ≡ Some 0 }
    ensures another { nearness (Host (codes "b.org")) (Host (codes "a.b.org")) ≡ None }
    ensures one_label { nearness (Under (codes "example.org")) (Host (codes "api.example.org")) ≡ Some 1 }
    ensures two_labels { nearness (Under (codes "example.org")) (Host (codes "a.b.example.org")) ≡ Some 2 }
    ensures no_label { nearness (Under (codes "example.org")) (Host (codes "example.org")) ≡ None }
    ensures no_dot { nearness (Under (codes "example.org")) (Host (codes "xexample.org")) ≡ None }
    ensures twice { labels_before (codes "a.a") (codes "a.a.a.a") ≡ Some 2 }
    ensures eight { nearness (Range 167772160 8) (Range 167838211 32) ≡ Some 24 }
    ensures sixteen { nearness (Range 167837696 16) (Range 167838211 32) ≡ Some 16 }
    ensures all_bits { nearness (Range 167838211 32) (Range 167838211 32) ≡ Some 0 }
    ensures no_bits { nearness (Range 0 0) (Range 167838211 32) ≡ Some 32 }
    ensures outside { nearness (Range 167837696 16) (Range 167903233 32) ≡ None }
    ensures of_a_host { nearness (Range 0 0) (Host (codes "a")) ≡ None }
{}

/// Which hit is picked: the nearest address, then the narrowest range, then the lowest one, then the lowest service.
pub fn picked_hits()
    ensures nearest { picked web_and_api (1 ∷ 2 ∷ []) false (Host (codes "api.example.org")) 443 ≡ Some (record { service = 2; near = 0; address = Host (codes "api.example.org"); ports = ports 1 65535 }) }
    ensures under { picked web_and_api (1 ∷ 2 ∷ []) false (Host (codes "www.example.org")) 443 ≡ Some (record { service = 1; near = 1; address = Under (codes "example.org"); ports = ports 443 443 }) }
    ensures not_itself { picked web_and_api (1 ∷ 2 ∷ []) false (Host (codes "example.org")) 443 ≡ None }
    ensures other_protocol { picked web_and_api (1 ∷ 2 ∷ []) true (Host (codes "api.example.org")) 443 ≡ None }
    ensures other_port { picked web_and_api (1 ∷ 2 ∷ []) false (Host (codes "www.example.org")) 444 ≡ None }
    ensures more_bits { picked two_networks (1 ∷ 2 ∷ []) false (Range 167838211 32) 22 ≡ Some (record { service = 2; near = 16; address = Range 167837696 16; ports = ports 22 22 }) }
    ensures outside { picked two_networks (1 ∷ 2 ∷ []) false (Range 167903233 32) 22 ≡ Some (record { service = 1; near = 24; address = Range 167772160 8; ports = ports 22 22 }) }
    ensures not_dialled { picked two_networks (1 ∷ []) false (Range 167838211 32) 22 ≡ Some (record { service = 1; near = 24; address = Range 167772160 8; ports = ports 22 22 }) }
    ensures no_intercept { picked two_networks (2 ∷ 3 ∷ []) false (Range 167903233 32) 22 ≡ None }
{}

/// Of ranges with one port the narrowest one counts, and of two as wide the lower one; the same of two services is the lower
/// service's.
pub fn narrow_ranges()
    ensures same { picked overlapping (1 ∷ 2 ∷ []) false (Host (codes "a.b.org")) 55 ≡ Some (record { service = 1; near = 1; address = Under (codes "b.org"); ports = ports 50 60 }) }
    ensures lower { picked overlapping (1 ∷ 2 ∷ []) false (Host (codes "a.b.org")) 50 ≡ Some (record { service = 1; near = 1; address = Under (codes "b.org"); ports = ports 40 50 }) }
    ensures wide { picked overlapping (1 ∷ 2 ∷ []) false (Host (codes "a.b.org")) 70 ≡ Some (record { service = 1; near = 1; address = Under (codes "b.org"); ports = ports 1 100 }) }
    ensures past { picked overlapping (1 ∷ 2 ∷ []) false (Host (codes "a.b.org")) 101 ≡ None }
    ensures farther { picked overlapping (1 ∷ 2 ∷ []) false (Host (codes "b.org")) 55 ≡ Some (record { service = 1; near = 1; address = Under (codes "org"); ports = ports 50 60 }) }
    ensures rank { hit_rank (record { service = 1; near = 2; address = Under (codes "org"); ports = ports 50 60 }) ≡ 2 ∷ 10 ∷ 50 ∷ 1 ∷ [] }
{}

/// Which services clash: a protocol, an address and a range of ports are the same.
pub fn clashing_services()
    ensures apart { clashes web_and_api (1 ∷ 2 ∷ []) 1 ≡ [] }
    ensures same { clashes both_under (1 ∷ 2 ∷ []) 1 ≡ 2 ∷ [] }
    ensures back { clashes both_under (1 ∷ 2 ∷ []) 2 ≡ 1 ∷ [] }
    ensures overlap { clashes overlapping (1 ∷ 2 ∷ []) 1 ≡ 2 ∷ [] }
    ensures not_dialled { clashes both_under (2 ∷ []) 1 ≡ [] }
    ensures other_not_dialled { clashes both_under (1 ∷ []) 1 ≡ [] }
    ensures no_intercept { clashes both_under (1 ∷ 3 ∷ []) 3 ≡ [] }
    ensures other_protocol { do_clash (over_tcp (Host (codes "a") ∷ []) (ports 1 2 ∷ [])) (over_udp (Host (codes "a") ∷ []) (ports 1 2 ∷ [])) ≡ false }
    ensures other_ports { do_clash (over_tcp (Host (codes "a") ∷ []) (ports 1 2 ∷ [])) (over_tcp (Host (codes "a") ∷ []) (ports 1 3 ∷ [])) ≡ false }
    ensures other_address { do_clash (over_tcp (Host (codes "a") ∷ []) (ports 1 2 ∷ [])) (over_tcp (Under (codes "a") ∷ []) (ports 1 2 ∷ [])) ≡ false }
{}

/// Which intercepts there are.
pub fn forms_of_intercepts()
    ensures is { is_intercept (over_tcp (Under (codes "example.org") ∷ []) (ports 443 443 ∷ [])) ≡ true }
    ensures of_ranges { is_intercept (over_udp (Range 167837696 16 ∷ Range 0 0 ∷ []) (ports 1 65535 ∷ ports 22 22 ∷ [])) ≡ true }
    ensures no_protocol { is_intercept (record { tcp = false; udp = false; addresses = Host (codes "a") ∷ []; ports = ports 1 1 ∷ [] }) ≡ false }
    ensures no_address { is_intercept (over_tcp [] (ports 1 1 ∷ [])) ≡ false }
    ensures no_ports { is_intercept (over_tcp (Host (codes "a") ∷ []) []) ≡ false }
    ensures too_many { is_intercept (over_tcp (replicate 33 (Host (codes "a"))) (ports 1 1 ∷ [])) ≡ false }
    ensures address_twice { is_without_repeats same_address (Host (codes "a") ∷ Under (codes "a") ∷ Host (codes "a") ∷ []) ≡ false }
    ensures ports_twice { is_without_repeats same_ports (ports 1 2 ∷ ports 1 3 ∷ ports 1 2 ∷ []) ≡ false }
    ensures port_0 { is_port_range (ports 0 1) ≡ false }
    ensures turned { is_port_range (ports 2 1) ≡ false }
    ensures past { is_port_range (ports 1 65536) ≡ false }
    ensures capital { is_address (Host (codes "Web")) ≡ false }
    ensures bits_past_the_range { is_address (Range 167838211 8) ≡ false }
    ensures bits_33 { is_address (Range 0 33) ≡ false }
    ensures text_of_a_range { is_address (Host (codes "10.1.2.3")) ≡ false }
{}
